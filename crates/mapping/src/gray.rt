// The Gray codes as they are printed on the list by the rack, a case for each part (document 02,
// U5).
ghost use Rattle.std.specs.Prelude.{◌≡◌, ◌^◌, ◌<◌};
ghost use Rattle.nest.specs.Nest.{max_cube};
ghost use Rattle.mapping.specs.Mapping.{gray};
ghost use Rattle.mapping.specs.GrayCodes.{gray_codes, code_for};

// The Gray code of a part. A direction has at most 64 parts, so the last case is part 63 and no
// other.
#[tactic(auto, unfolding(crate::specs::GrayCodes::gray_codes, crate::specs::Mapping::gray))]
pub fn gray_of(p: u64) -> u64
    requires { p < 2 ^ max_cube }
    ensures { (result ≡ code_for gray_codes p) × (result ≡ gray p) }
{
    // Kept: written-out cases, as document 02, U5, asks for them (`code_for gray_codes`).
    match p {
        0 => 0,
        1 => 1,
        2 => 3,
        3 => 2,
        4 => 6,
        5 => 7,
        6 => 5,
        7 => 4,
        8 => 12,
        9 => 13,
        10 => 15,
        11 => 14,
        12 => 10,
        13 => 11,
        14 => 9,
        15 => 8,
        16 => 24,
        17 => 25,
        18 => 27,
        19 => 26,
        20 => 30,
        21 => 31,
        22 => 29,
        23 => 28,
        24 => 20,
        25 => 21,
        26 => 23,
        27 => 22,
        28 => 18,
        29 => 19,
        30 => 17,
        31 => 16,
        32 => 48,
        33 => 49,
        34 => 51,
        35 => 50,
        36 => 54,
        37 => 55,
        38 => 53,
        39 => 52,
        40 => 60,
        41 => 61,
        42 => 63,
        43 => 62,
        44 => 58,
        45 => 59,
        46 => 57,
        47 => 56,
        48 => 40,
        49 => 41,
        50 => 43,
        51 => 42,
        52 => 46,
        53 => 47,
        54 => 45,
        55 => 44,
        56 => 36,
        57 => 37,
        58 => 39,
        59 => 38,
        60 => 34,
        61 => 35,
        62 => 33,
        _ => 32, // part 63
    }
}
