// Parity as bytes arrive (document 02, Ask 8): a byte's share is added to the parity when the byte is known; on `header`.
#![tactic(auto)]

ghost use Rattle.std.specs.Prelude.{◌≡◌, ◌<◌, ◌≤◌};
ghost use Rattle.header.specs.Packed.{unpacked};
ghost use Rattle.parity_share.specs.Shares.{share, share_refusal, with_share};

// The shares of a byte 1 at places 8 to 95: X^8 to X^95 modulo the generator, each packed, the constant lowest.
const SHARES: [u64; 88] = [
    0xe32cb247ac08e025,
    0x8363ff5d1dabb279,
    0x9f08bdf4d2de1d18,
    0x827df03c36912ed3,
    0x622b6e98444a573d,
    0xa310b9d26360132b,
    0xdda7f1823d621ecc,
    0x94a6644d87b8852c,
    0x5fad7ba2b0517489,
    0x81f7166e61b64411,
    0xd0b9f7068a38a852,
    0x894159bef2660fa8,
    0x2d8bde9753334267,
    0xb9d6ed1f38372250,
    0x1d2c535134834dd9,
    0xb9480774bea56bee,
    0x83c638d7a6caf3d9,
    0x3acf374fb39fbd18,
    0xf801e333e57061c1,
    0x4bc156db97f29e49,
    0xd090724c5afc85ef,
    0xa0c4136e364bb2a8,
    0x3179861effdba0a3,
    0x3db980b44135b49b,
    0x1d7221092c41783a,
    0xe73a5f6c7c9088ee,
    0x3e3e268c0fe3deed,
    0xa2a0d28e13333355,
    0x8ee01fb5c24a80e9,
    0x1f09ec6f1c84999c,
    0x47af40d2fc61f3a4,
    0x5e4b70244af19c4e,
    0x84d022d36d566334,
    0xbf110a4c4c37cae3,
    0xaa238baafb5b8407,
    0x46c4c25fa3bd81dc,
    0xd6e54f3c3a8b046b,
    0xa511e8818efa4c76,
    0xac1e29e0680d3912,
    0x0b8e03433a30ee02,
    0xfd0a71f1d0b66c5a,
    0x08cfd4a877d742f8,
    0x84a95175de02ab35,
    0xc662acff18ffcbe3,
    0xb408c4a7e8b5621c,
    0xc0e452c599ab155d,
    0x421e75a9735ba6c2,
    0xa7e24bed568cbdff,
    0x84e53cb65bec6d58,
    0x8a0f6f7af639a6e3,
    0x5bc9d15ae5823408,
    0x4eed1c3a38d66285,
    0xb446d3a558280e5e,
    0x8ef3507504c7575d,
    0x0c462ca991532d9c,
    0xa6e1a292d04d68a1,
    0x6420f1773631d37d,
    0xd867dd2fd7d429f5,
    0x1c1689e117a7fb9d,
    0x60be0510361bcfcb,
    0xed23482e77e83861,
    0xb70ce40b3b03df92,
    0xfcb035dfc60ea632,
    0x51a748f96315cadd,
    0xb0513f30e37839fa,
    0x32af37cfded054c9,
    0xd37c9a5ca3d9e3f4,
    0x7458c85efa3594c7,
    0x36a41be7c113359f,
    0x73e04042ea981260,
    0x1de83e3f0fad0864,
    0x7d25694f90e0d6ee,
    0xe35441c8b119af8f,
    0xfb9070400ce41879,
    0xe226eefbea931b26,
    0x6a13f15c2a58515c,
    0xd0f284be7826211e,
    0xc232e14cecef43a8,
    0x4ff58552721d8e88,
    0x4ff309a83fcce37b,
    0x497ff3e5eea1107b,
    0xb56d35bb4c626aa5,
    0x4639fc26e2ab4c78,
    0x2bdb367d2c46a06b,
    0x99d68cef82e5548e,
    0x2ca460e3c2e8c20d,
    0x75442bc94fbfa875,
    0xc96b3e15e72767ba,
];

// The refusal number, 0 where there is none, and the parity with the share added.
#[derive(Clone, Copy)]
pub struct Added {
    pub refusal: u32,
    pub parity: [u8; 8],
}

// Refusal 14 for a place outside 8 to 95, else 0.
#[tactic(auto, unfolding(crate::specs::Shares::share_refusal))]
fn place_refusal(place: usize) -> u32
    ensures { result ≡ share_refusal place }
{
    if place < 8 {
        return 14;
    }
    if 95 < place {
        return 14;
    }
    0
}

// The share of a byte 1 at a place, packed.
fn share_of_one(place: usize) -> u64
    requires { (8 ≤ place) × (place < 96) }
    ensures { unpacked result ≡ share place 1 }
{
    SHARES[place - 8]
}

// Adds the share of the byte at a place to the parity: the share of a byte 1, times the byte. Or refuses with 14 and hands the parity back as it came.
pub fn add_share(parity: [u8; 8], place: usize, byte: u8) -> Added
    ensures refusal_value { result.refusal ≡ share_refusal place }
    ensures parity_value { result.parity ≡ with_share parity place byte }
{
    let refusal = place_refusal(place);
    if refusal != 0 {
        return Added {
            refusal: refusal,
            parity: parity,
        };
    }
    let share = header::by_byte(share_of_one(place), header::wide(byte));
    let next = header::unpack(header::word(&parity, 0) ^ share);
    Added {
        refusal: refusal,
        parity: next,
    }
}
