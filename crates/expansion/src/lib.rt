// Expansion bytes of a PDU, read and written (document 01, "Expansion, PSD, pieces"), on `layout`.
#![tactic(auto)]

ghost use Rattle.std.specs.Prelude.{◌≡◌, ◌+◌, ◌*◌, ◌/◌, ◌%◌, ◌<◌, ◌≤◌, List, [], ◌∷◌, ◌++◌, length, get_or, take};
ghost use Rattle.expansion.specs.Expansion.{expansion_length, septets_at, known as known_of, more_bytes, field_of, absorb, nothing as nothing_of, interpretation, expansion_at, septets_of_all};
ghost use Rattle.expansion.specs.Writing.{class_field, program_field, type_field, services_field, expansion_bytes, marked};

// What expansion bytes say: values are 0 where not sent or not interpreted.
#[derive(Clone, Copy)]
pub struct Interpreted {
    // No rule is broken.
    pub right: bool,
    pub class: u8,
    pub program: u8,
    // A displacement was sent.
    pub displaced: bool,
    pub displacement: u16,
    pub access: u8,
    pub ptype: u8,
    pub services: u8,
    pub marker: u32,
}

// How many expansion bytes stand from a place on, at most 16 and none past La; 0 where that is broken.
fn expansion_length(pdu: &[u8], at: u16, la: u8) -> usize
    ensures { result ≡ expansion_length pdu.now at la }
{
    let last = usize::from(la);
    for i in 0..16 {
        let place = usize::from(at) + i;
        if last < place {
            return 0;
        }
        if pdu.len() <= place {
            return 0;
        }
        if pdu[place] < 128 {
            return i + 1;
        }
    }
    0
}

// No field, and whether no rule is broken.
pub fn nothing(right: bool) -> Interpreted
    ensures { result ≡ nothing_of right }
{
    Interpreted {
        right,
        class: 0,
        program: 0,
        displaced: false,
        displacement: 0,
        access: 0,
        ptype: 0,
        services: 0,
        marker: 0,
    }
}

// Whether interpretation goes on at an ID and first byte.
fn known(id: u8, b: u8) -> bool
    ensures { result ≡ known_of id b }
{
    id < 3 || (id == 4 && b / 8 % 2 == 1)
}

// A field's bytes after its first.
fn more_bytes(id: u8, b: u8) -> usize
    ensures { (result ≡ more_bytes id b) × (result ≤ 3) }
{
    match id {
        0 => 0,
        1 => 2 * (usize::from(b) % 2),
        2 => 1,
        _ => 3,
    }
}

// Septet j of the n from a place on; 0 past them.
fn septet(pdu: &[u8], at: usize, n: usize, j: usize) -> u8
    requires { (at ≤ 65535) × (n ≤ 16) }
    ensures { (result ≡ get_or (septets_at pdu.now at n) j 0) × (result < 128) }
{
    if j < n {
        return layout::byte_at(pdu, at + j) % 128;
    }
    0
}

// What is known with one more field: its ID, its first septet and the three that follow.
fn absorbed(v: Interpreted, id: u8, b: u8, r0: u8, r1: u8, r2: u8) -> Interpreted
    requires { (b < 128) × (r0 < 128) × (r1 < 128) × (r2 < 128) }
    ensures { result ≡ absorb (field_of id b (r0 ∷ r1 ∷ r2 ∷ [])) v }
{
    match id {
        0 => Interpreted { class: b % 16, ..v },
        1 if b % 2 == 1 => Interpreted {
            program: b / 2 % 8,
            displaced: true,
            displacement: fourteen(r0, r1),
            ..v
        },
        1 => Interpreted {
            program: b / 2 % 8,
            ..v
        },
        2 => Interpreted {
            access: b / 8 % 2,
            ptype: 128 * (b % 2) + r0,
            ..v
        },
        _ => Interpreted {
            services: b % 8,
            marker: twenty_one(r0, r1, r2),
            ..v
        },
    }
}

fn fourteen(r0: u8, r1: u8) -> u16
    requires { (r0 < 128) × (r1 < 128) }
    ensures { result ≡ 128 * r0 + r1 }
{
    128 * u16::from(r0) + u16::from(r1)
}

fn twenty_one(r0: u8, r1: u8, r2: u8) -> u32
    requires { (r0 < 128) × (r1 < 128) × (r2 < 128) }
    ensures { result ≡ 16384 * r0 + 128 * r1 + r2 }
{
    16384 * u32::from(r0) + 128 * u32::from(r1) + u32::from(r2)
}

// What the n septets from a place on say.
fn interpret(pdu: &[u8], at: usize, n: usize) -> Interpreted
    requires at_bound { (at ≤ 65535) × (n ≤ 16) }
    requires n_len { length (septets_at pdu.now at n) ≡ n }
    ensures { result ≡ interpretation (septets_at pdu.now at n) }
{
    let mut v = nothing(true);
    let mut next: u8 = 0;
    let mut i: usize = 0;
    while i < n {
        let b = septet(pdu, at, n, i);
        let id = b / 16;
        if id < next {
            return nothing(false);
        }
        if !known(id, b) {
            return v;
        }
        if b == 0 {
            return nothing(false);
        }
        let m = more_bytes(id, b);
        if n < i + 1 + m {
            return nothing(false);
        }
        let r0 = septet(pdu, at, n, i + 1);
        let r1 = septet(pdu, at, n, i + 2);
        let r2 = septet(pdu, at, n, i + 3);
        let w = absorbed(v, id, b, r0, r1, r2);
        v = w;
        next = id + 1;
        i = i + 1 + m;
    }
    v
}

// The expansion bytes from a place on: how many there are, and what they say.
#[derive(Clone, Copy)]
pub struct Expansion {
    pub length: usize,
    pub values: Interpreted,
}

// Reads the expansion bytes from a place on, none past La.
pub fn read_expansion(pdu: &[u8], at: u16, la: u8) -> Expansion
    ensures length_value { (result.length ≡ expansion_length pdu.now at la) × (result.length ≤ 16) }
    ensures values_value { result.values ≡ expansion_at pdu.now at la }
{
    let n = expansion_length(pdu, at, la);
    if n == 0 {
        let none = nothing(false);
        return Expansion {
            length: n,
            values: none,
        };
    }
    let values = interpret(pdu, usize::from(at), n);
    Expansion { length: n, values }
}

// The fields to be sent, each with a flag that says whether it is.
#[repr(C)]
#[derive(Clone, Copy)]
pub struct Fields {
    pub classed: bool,
    pub class: u8,
    pub programmed: bool,
    pub program: u8,
    // Counts only with `programmed`.
    pub displaced: bool,
    pub displacement: u16,
    // Access and type.
    pub typed: bool,
    pub access: u8,
    pub ptype: u8,
    // Applied services and marker.
    pub serviced: bool,
    pub services: u8,
    pub marker: u32,
}

// The first `length` of `bytes`.
#[derive(Clone, Copy)]
pub struct ExpansionBytes {
    pub bytes: [u8; 16],
    pub length: usize,
}

// One septet more, with bit 7 set.
fn put(l: ExpansionBytes, b: u8) -> ExpansionBytes
    requires { (l.length < 16) × (b < 128) }
    ensures bytes_value { take result.length result.bytes ≡ take l.length l.bytes ++ marked (b ∷ []) }
    ensures length_value { (result.length ≡ l.length + 1) × (length result.bytes ≡ 16) }
{
    let n = l.length;
    let mut bytes = l.bytes;
    bytes[n] = 128 + b;
    ExpansionBytes {
        bytes,
        length: n + 1,
    }
}

// The low seven bits.
fn low(n: u32) -> u8
    ensures { (result ≡ n % 128) × (result < 128) }
{
    (n % 128) as u8
}

// The class's septets more, if it is sent.
fn put_class(l: ExpansionBytes, x: Fields) -> ExpansionBytes
    requires { l.length ≤ 12 }
    ensures bytes_value { take result.length result.bytes ≡ take l.length l.bytes ++ marked (septets_of_all (class_field x)) }
    ensures length_bound { result.length ≤ l.length + 1 }
{
    if !x.classed {
        return l;
    }
    put(l, x.class % 16)
}

// The program's septets more, if it is sent.
fn put_program(l: ExpansionBytes, x: Fields) -> ExpansionBytes
    requires { l.length ≤ 12 }
    ensures bytes_value { take result.length result.bytes ≡ take l.length l.bytes ++ marked (septets_of_all (program_field x)) }
    ensures length_bound { result.length ≤ l.length + 3 }
{
    if !x.programmed {
        return l;
    }
    if !x.displaced {
        return put(l, 16 + 2 * (x.program % 8));
    }
    let first = put(l, 16 + 2 * (x.program % 8) + 1);
    let second = put(first, low(u32::from(x.displacement) / 128));
    put(second, low(u32::from(x.displacement)))
}

// The type's septets more, if it is sent.
fn put_type(l: ExpansionBytes, x: Fields) -> ExpansionBytes
    requires { l.length ≤ 12 }
    ensures bytes_value { take result.length result.bytes ≡ take l.length l.bytes ++ marked (septets_of_all (type_field x)) }
    ensures length_bound { result.length ≤ l.length + 2 }
{
    if !x.typed {
        return l;
    }
    let first = put(l, 32 + 8 * (x.access % 2) + x.ptype / 128 % 2);
    put(first, x.ptype % 128)
}

// The services' septets more, if they are sent.
fn put_services(l: ExpansionBytes, x: Fields) -> ExpansionBytes
    requires { l.length ≤ 12 }
    ensures bytes_value { take result.length result.bytes ≡ take l.length l.bytes ++ marked (septets_of_all (services_field x)) }
    ensures length_bound { (result.length ≤ l.length + 4) × (length result.bytes ≡ 16) }
{
    if !x.serviced {
        return l;
    }
    let first = put(l, 64 + 8 + x.services % 8);
    let second = put(first, low(x.marker / 16384));
    let third = put(second, low(x.marker / 128));
    put(third, low(x.marker))
}

// The bytes of the fields to be sent.
pub fn expansion_bytes(x: Fields) -> ExpansionBytes
    ensures length_value { (result.length ≡ length (expansion_bytes x)) × (result.length ≤ 10) }
    ensures bytes_value { take result.length result.bytes ≡ expansion_bytes x }
{
    let zeros: [u8; 16] = [0; 16];
    let empty = ExpansionBytes {
        bytes: zeros,
        length: 0,
    };
    let class = put_class(empty, x);
    let program = put_program(class, x);
    let typed = put_type(program, x);
    let all = put_services(typed, x);
    let n = all.length;
    if n == 0 {
        return all;
    }
    // No byte follows the last.
    let mut bytes = all.bytes;
    bytes[n - 1] = bytes[n - 1] % 128;
    ExpansionBytes { bytes, length: n }
}
