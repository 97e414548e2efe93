//! The cases, and how each is worked out. Scenario 13 is the fall of the whole range, 11 the rise.

use super::Case;
use crate::sets::Worked;

/// All cases.
pub(super) fn cases() -> &'static [Case] {
    &[
        // 2 * 300 at a fall of the whole range; X = 600 + 600 - 0 - 0
        Case {
            set: Worked::One,
            nets: &[2, 0, 0, 0],
            commodities: &[[600, 12, 1200, 0, 0, 0, 0, 600], [0, 0, 0, 0, 0, 0, 0, 0]],
            option_value: 0,
            requirement: 600,
        },
        // 2 * 300 - 2 * 270; two spreads at 40
        Case {
            set: Worked::One,
            nets: &[2, -2, 0, 0],
            commodities: &[[60, 12, 120, 80, 0, 0, 0, 140], [0, 0, 0, 0, 0, 0, 0, 0]],
            option_value: 0,
            requirement: 140,
        },
        // One spread between commodities uses both net deltas: each credit is 600 * 5000 / 20000.
        Case {
            set: Worked::One,
            nets: &[1, 0, 0, -2],
            commodities: &[
                [300, 12, 600, 0, 0, 150, 0, 150],
                [300, 10, 600, 0, 0, 150, 0, 150],
            ],
            option_value: 0,
            requirement: 300,
        },
        // A net delta of 10000 beside one of -40000, of which 20000 is used: credits 660 / 4, and 20000 * 5000 * 1200 /
        // (20000 * 40000). What the spread between months used is used again.
        Case {
            set: Worked::One,
            nets: &[2, -1, 0, -4],
            commodities: &[
                [330, 12, 660, 40, 0, 165, 0, 205],
                [600, 10, 1200, 0, 0, 150, 0, 450],
            ],
            option_value: 0,
            requirement: 655,
        },
        // X = 220 + 205 - 10 + 12; 220 + 60
        Case {
            set: Worked::One,
            nets: &[0, 0, -1, 0],
            commodities: &[[220, 10, 427, 0, 0, 0, 25, 220], [0, 0, 0, 0, 0, 0, 0, 0]],
            option_value: -60,
            requirement: 280,
        },
        // X = 60 + 57 + 10 - 12; 60 - 60
        Case {
            set: Worked::One,
            nets: &[0, 0, 1, 0],
            commodities: &[[60, 13, 115, 0, 0, 0, 0, 60], [0, 0, 0, 0, 0, 0, 0, 0]],
            option_value: 60,
            requirement: 0,
        },
        // each loss doubled
        Case {
            set: Worked::Two,
            nets: &[2, 0, 0, 0],
            commodities: &[[1200, 12, 2400, 0, 0, 0, 0, 1200], [0, 0, 0, 0, 0, 0, 0, 0]],
            option_value: 0,
            requirement: 1200,
        },
        // A sale loses by a rise.
        Case {
            set: Worked::Fut,
            nets: &[-1],
            commodities: &[[300, 10, 600, 0, 0, 0, 0, 300]],
            option_value: 0,
            requirement: 300,
        },
        // n = 3333, the lesser of 3333 and 10000; 3333 * 40 / 10000 = 13.332, rounded up
        Case {
            set: Worked::Odd,
            nets: &[1, -1, 0, 0],
            commodities: &[[30, 12, 60, 14, 0, 0, 0, 44], [0, 0, 0, 0, 0, 0, 0, 0]],
            option_value: 0,
            requirement: 44,
        },
        // A tier with itself is one stage: 2 * 40, once.
        Case {
            set: Worked::Flat,
            nets: &[2, -2, 0, 0],
            commodities: &[[60, 12, 120, 80, 0, 0, 0, 140], [0, 0, 0, 0, 0, 0, 0, 0]],
            option_value: 0,
            requirement: 140,
        },
        // X = 600 + 200 + 200. A credit above the scan risk leaves 0 in its own commodity, and nothing for the other.
        Case {
            set: Worked::Neg,
            nets: &[1, 0, 0, -2],
            commodities: &[
                [300, 12, 1000, 0, 0, 500, 0, 0],
                [300, 10, 600, 0, 0, 300, 0, 0],
            ],
            option_value: 0,
            requirement: 0,
        },
        // A scan risk of 0 has no price risk, and its leg no credit; the other leg has its own.
        Case {
            set: Worked::Win,
            nets: &[1, 0, 0, -2],
            commodities: &[[0, 0, 0, 0, 0, 0, 0, 0], [300, 10, 600, 0, 0, 150, 0, 150]],
            option_value: 0,
            requirement: 150,
        },
        // All scenarios lose 5: the first is active, and X = 5 + 5 - 5 - 5.
        Case {
            set: Worked::Win,
            nets: &[-1, 0, 0, 0],
            commodities: &[[5, 0, 0, 0, 0, 0, 0, 5], [0, 0, 0, 0, 0, 0, 0, 0]],
            option_value: 0,
            requirement: 5,
        },
        // 20000 outright at 50
        Case {
            set: Worked::Spot,
            nets: &[2, 0, 0, 0],
            commodities: &[[600, 12, 1200, 0, 100, 0, 0, 700], [0, 0, 0, 0, 0, 0, 0, 0]],
            option_value: 0,
            requirement: 700,
        },
        // 20000 in spreads at 30
        Case {
            set: Worked::Spot,
            nets: &[2, -2, 0, 0],
            commodities: &[[60, 12, 120, 80, 60, 0, 0, 200], [0, 0, 0, 0, 0, 0, 0, 0]],
            option_value: 0,
            requirement: 200,
        },
        // 900 - 540; 20000 in spreads at 30, and 10000 outright at 50
        Case {
            set: Worked::Spot,
            nets: &[3, -2, 0, 0],
            commodities: &[[360, 12, 720, 80, 110, 0, 0, 550], [0, 0, 0, 0, 0, 0, 0, 0]],
            option_value: 0,
            requirement: 550,
        },
        // 9999 in spreads at 30 is 29.997, and 1 outright at 50 is 0.005: each is rounded up.
        Case {
            set: Worked::Spodd,
            nets: &[1, -1, 0, 0],
            commodities: &[[30, 12, 60, 14, 31, 0, 0, 75], [0, 0, 0, 0, 0, 0, 0, 0]],
            option_value: 0,
            requirement: 75,
        },
        // The extreme fall is its own pair: X = 500 + 500 - 10 + 20, and 1010 / 4 = 252.5 is rounded down.
        Case {
            set: Worked::Extreme,
            nets: &[1, -2],
            commodities: &[
                [500, 15, 1010, 0, 0, 252, 0, 248],
                [300, 10, 600, 0, 0, 150, 0, 150],
            ],
            option_value: 0,
            requirement: 398,
        },
        // So is the extreme rise: X = 450 + 450 + 10 - 20, and 890 / 4 = 222.5.
        Case {
            set: Worked::Extreme,
            nets: &[-1, 2],
            commodities: &[
                [450, 14, 890, 0, 0, 222, 0, 228],
                [300, 12, 600, 0, 0, 150, 0, 150],
            ],
            option_value: 0,
            requirement: 378,
        },
        // n = 15000, the least of 20000, 20000 and 15000, uses 15000 of 20000, 7500 of 10000 and all 30000. Credits at 4000:
        // 15000 * 400 / (5 * 20000), 7500 * 400 / (5 * 10000), 1800 / 5. The second spread lacks a leg.
        Case {
            set: Worked::Legs,
            nets: &[2, 1, -3, 0],
            commodities: &[
                [200, 12, 400, 0, 0, 60, 0, 140],
                [200, 12, 400, 0, 0, 60, 0, 140],
                [900, 10, 1800, 0, 0, 360, 0, 540],
                [0, 0, 0, 0, 0, 0, 0, 0],
            ],
            option_value: 0,
            requirement: 820,
        },
        // The two legs of side A differ in sign.
        Case {
            set: Worked::Legs,
            nets: &[2, -1, -3, 0],
            commodities: &[
                [200, 12, 400, 0, 0, 0, 0, 200],
                [200, 10, 400, 0, 0, 0, 0, 200],
                [900, 10, 1800, 0, 0, 0, 0, 900],
                [0, 0, 0, 0, 0, 0, 0, 0],
            ],
            option_value: 0,
            requirement: 1300,
        },
        // All three legs have one sign.
        Case {
            set: Worked::Legs,
            nets: &[2, 1, 3, 0],
            commodities: &[
                [200, 12, 400, 0, 0, 0, 0, 200],
                [200, 12, 400, 0, 0, 0, 0, 200],
                [900, 12, 1800, 0, 0, 0, 0, 900],
                [0, 0, 0, 0, 0, 0, 0, 0],
            ],
            option_value: 0,
            requirement: 1300,
        },
        // The second spread alone: n = 20000, the least of 20000, 20000, 20000 and 30000, uses all but 30000 of the last 90000.
        // Credits at 6000 are 3 / 10 of X where all is used, and 2 / 3 of that for the last: 240, 240, 360, 180.
        Case {
            set: Worked::Legs,
            nets: &[-4, 2, 2, -9],
            commodities: &[
                [400, 10, 800, 0, 0, 240, 0, 160],
                [400, 12, 800, 0, 0, 240, 0, 160],
                [600, 12, 1200, 0, 0, 360, 0, 240],
                [450, 10, 900, 0, 0, 180, 0, 270],
            ],
            option_value: 0,
            requirement: 830,
        },
        // all signs turned
        Case {
            set: Worked::Legs,
            nets: &[4, -2, -2, 9],
            commodities: &[
                [400, 12, 800, 0, 0, 240, 0, 160],
                [400, 10, 800, 0, 0, 240, 0, 160],
                [600, 10, 1200, 0, 0, 360, 0, 240],
                [450, 12, 900, 0, 0, 180, 0, 270],
            ],
            option_value: 0,
            requirement: 830,
        },
        // The two legs of side A differ in sign.
        Case {
            set: Worked::Legs,
            nets: &[-4, 2, 2, 9],
            commodities: &[
                [400, 10, 800, 0, 0, 0, 0, 400],
                [400, 12, 800, 0, 0, 0, 0, 400],
                [600, 12, 1200, 0, 0, 0, 0, 600],
                [450, 12, 900, 0, 0, 0, 0, 450],
            ],
            option_value: 0,
            requirement: 1850,
        },
        // The two legs of side B differ in sign.
        Case {
            set: Worked::Legs,
            nets: &[-4, 2, -2, -9],
            commodities: &[
                [400, 10, 800, 0, 0, 0, 0, 400],
                [400, 12, 800, 0, 0, 0, 0, 400],
                [600, 10, 1200, 0, 0, 0, 0, 600],
                [450, 10, 900, 0, 0, 0, 0, 450],
            ],
            option_value: 0,
            requirement: 1850,
        },
        // X = 606 - 3 - 6. The first spread uses 20000 of 30000, and the second the 10000 that are left. 597 * 5000 / 20000 is
        // 149.25: two thirds are 99.5 and a third 49.75, each rounded down. The last commodity has half of 300.
        Case {
            set: Worked::Shared,
            nets: &[3, -2, -2],
            commodities: &[
                [303, 12, 597, 0, 0, 148, 0, 155],
                [400, 10, 800, 0, 0, 200, 0, 200],
                [600, 10, 1200, 0, 0, 150, 0, 450],
            ],
            option_value: 0,
            requirement: 805,
        },
        // X = 606 + 3 + 6: 102.5 and 51.25, each rounded down.
        Case {
            set: Worked::Shared,
            nets: &[-3, 2, 2],
            commodities: &[
                [303, 10, 615, 0, 0, 153, 0, 150],
                [400, 12, 800, 0, 0, 200, 0, 200],
                [600, 12, 1200, 0, 0, 150, 0, 450],
            ],
            option_value: 0,
            requirement: 800,
        },
        // The first spread leaves no rest for the second: 398 / 4 = 99.5.
        Case {
            set: Worked::Shared,
            nets: &[2, -2, -2],
            commodities: &[
                [202, 12, 398, 0, 0, 99, 0, 103],
                [400, 10, 800, 0, 0, 200, 0, 200],
                [600, 10, 1200, 0, 0, 0, 0, 600],
            ],
            option_value: 0,
            requirement: 903,
        },
        // Tier 1 has 70000 long and 50000 short, tier 2 80000 and 60000, tier 3 40000 short. Long 1 and short 2 form 20000 (70000 at
        // 2, 60000 at 3): 100 cents. Long 2 and short 1 form 25000 (80000 at 3 give 26666, 50000 at 2): 125, with 75000 of tier 2
        // used. So 5000 are left for the next spread, with tier 3: 35. Spot: 40000 + 50000 in spreads at 30, 30000 outright at 7.
        Case {
            set: Worked::Tiers,
            nets: &[7, -5, 8, -6, -4],
            commodities: &[[0, 0, 0, 260, 291, 0, 0, 551]],
            option_value: 0,
            requirement: 551,
        },
        // All turned: 25000 and 20000, and then long 3 with the 5000 left of short 2.
        Case {
            set: Worked::Tiers,
            nets: &[-7, 5, -8, 6, 4],
            commodities: &[[0, 0, 0, 260, 291, 0, 0, 551]],
            option_value: 0,
            requirement: 551,
        },
        // Both stages form 3333 (16.665, rounded up, twice) and use 6666 of tier 1 and 9999 of tier 2. The 1 that is left of long 2
        // costs 0.007, rounded up. Spot: 13332 at 30 is 39.996, 6668 at 7 is 4.6676.
        Case {
            set: Worked::Tiers,
            nets: &[1, -1, 1, -1, -1],
            commodities: &[[0, 0, 0, 35, 45, 0, 0, 80]],
            option_value: 0,
            requirement: 80,
        },
        // Puts sold against futures sold: nothing is lost in any scenario, but each put sold costs 25. They have no option value.
        Case {
            set: Worked::Options,
            nets: &[-2, 0, -4, 0],
            commodities: &[[0, 0, 0, 0, 0, 0, 100, 100], [0, 0, 0, 0, 0, 0, 0, 0]],
            option_value: 0,
            requirement: 100,
        },
        // Calls sold too: 3 * 220, X = 660 + 615 - 30 + 36, 7 * 25, and 3 * 60 owed.
        Case {
            set: Worked::Options,
            nets: &[-2, -3, -4, 0],
            commodities: &[[660, 10, 1281, 0, 0, 0, 175, 660], [0, 0, 0, 0, 0, 0, 0, 0]],
            option_value: -180,
            requirement: 840,
        },
        // Calls bought: 2 * 60, X = 120 + 114 + 20 - 24, and the puts alone have a minimum.
        Case {
            set: Worked::Options,
            nets: &[-2, 2, -4, 0],
            commodities: &[[120, 13, 230, 0, 0, 0, 100, 120], [0, 0, 0, 0, 0, 0, 0, 0]],
            option_value: 120,
            requirement: 0,
        },
        // The minimum is above the scan risk: 100 - 60.
        Case {
            set: Worked::Options,
            nets: &[-2, 1, -4, 0],
            commodities: &[[60, 13, 115, 0, 0, 0, 100, 100], [0, 0, 0, 0, 0, 0, 0, 0]],
            option_value: 60,
            requirement: 40,
        },
        // The largest loss of a put sold stands in the extreme fall, its own pair.
        Case {
            set: Worked::Options,
            nets: &[0, 0, 0, -1],
            commodities: &[[0, 0, 0, 0, 0, 0, 0, 0], [11, 15, 22, 0, 0, 0, 7, 11]],
            option_value: -11,
            requirement: 22,
        },
        // 15 - 11
        Case {
            set: Worked::Options,
            nets: &[0, 0, 0, 1],
            commodities: &[[0, 0, 0, 0, 0, 0, 0, 0], [15, 10, 30, 0, 0, 0, 0, 15]],
            option_value: 11,
            requirement: 4,
        },
    ]
}
