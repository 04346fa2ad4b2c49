// The header's eight sums with a power of a worked out for each byte, as document 01, "Header code", writes them; on `field` and `header`.
// In none of the product's libraries: the benchmark times these beside those of `header::syndromes`, which are the same.
#![tactic(auto)]

ghost use Rattle.std.specs.Prelude.{◌≡◌, true, ◌≤◌};
ghost use Rattle.field.specs.Field.{Powers, Logarithms};
ghost use Rattle.header.specs.Header.{syndrome, syndromes};

// S1 to S8.
#[repr(C)]
#[derive(Clone, Copy)]
pub struct PowerSumsAnswer {
    pub values: [u8; 8],
}

// Sj: byte i times a^(i j), over the 96 bytes.
fn sum(powers: &[u8; 510], logarithms: &[u8; 256], header: &[u8; 96], j: usize) -> u8
    requires powers { Powers powers.now }
    requires logarithms { Logarithms logarithms.now }
    requires j_bound { j ≤ 8 }
    ensures { result ≡ syndrome j header.now }
{
    let mut s: u8 = 0;
    for i in 0..96 {
        s = s
            ^ field::product_by(
                powers,
                logarithms,
                header[i],
                field::power_by(powers, i * j),
            );
    }
    s
}

// S1 to S8, from the lent tables.
fn sums_by(powers: &[u8; 510], logarithms: &[u8; 256], header: &[u8; 96]) -> [u8; 8]
    requires powers { Powers powers.now }
    requires logarithms { Logarithms logarithms.now }
    ensures { result ≡ syndromes header.now }
{
    [
        sum(powers, logarithms, header, 1),
        sum(powers, logarithms, header, 2),
        sum(powers, logarithms, header, 3),
        sum(powers, logarithms, header, 4),
        sum(powers, logarithms, header, 5),
        sum(powers, logarithms, header, 6),
        sum(powers, logarithms, header, 7),
        sum(powers, logarithms, header, 8),
    ]
}

// S1 to S8.
pub fn sums(header: &[u8; 96]) -> [u8; 8]
    ensures { result ≡ syndromes header.now }
{
    let powers = field::powers();
    let logarithms = field::logarithms();
    sums_by(&powers, &logarithms, header)
}

// Whether these sums are those of `header::syndromes`: for every 96 bytes they are.
pub fn same(header: &[u8; 96]) -> bool
    ensures { result ≡ true }
{
    let one = sums(header);
    let other = header::syndromes(header);
    for k in 0..8 {
        if one[k] != other[k] {
            return false;
        }
    }
    true
}

// The eight sums, for C.
#[unsafe(no_mangle)]
pub extern "C" fn power_sums(header: &[u8; 96]) -> PowerSumsAnswer
    ensures { result.values ≡ syndromes header.now }
{
    let values = sums(header);
    PowerSumsAnswer { values: values }
}
