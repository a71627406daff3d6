// One field of a claim changed.
use claims::Claim;

// The claims that differ from `c` in one field: each number one more and one less, and the sign turned.
pub(crate) fn changes(c: Claim) -> [Claim; 9] {
    [
        Claim {
            place: c.place.wrapping_add(1),
            ..c
        },
        Claim {
            place: c.place.wrapping_sub(1),
            ..c
        },
        Claim {
            node: c.node.wrapping_add(1),
            ..c
        },
        Claim {
            node: c.node.wrapping_sub(1),
            ..c
        },
        Claim { sign: !c.sign, ..c },
        Claim {
            first: c.first.wrapping_add(1),
            ..c
        },
        Claim {
            first: c.first.wrapping_sub(1),
            ..c
        },
        Claim {
            second: c.second.wrapping_add(1),
            ..c
        },
        Claim {
            second: c.second.wrapping_sub(1),
            ..c
        },
    ]
}
