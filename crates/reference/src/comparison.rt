// Table 3, in two's complement: from the top down, the first place where the words differ decides. The word with the 1 there is the
// greater, but at the top place, whose bit counts as negative, the less.
use crate::evaluator::Shown;
use crate::places::bit;
use std::cmp::Ordering;

// How the left word stands to the right one.
fn order_of(n: u32, left: u64, right: u64) -> Ordering {
    for place in (0..n).rev() {
        let x = bit(left, place);
        if x ^ bit(right, place) {
            let is_top = place + 1 == n;
            return if x ^ is_top {
                Ordering::Greater
            } else {
                Ordering::Less
            };
        }
    }
    Ordering::Equal
}

pub fn comparison(function: u32, n: u32, left: u64, right: u64) -> Shown {
    let order = order_of(n, left, right);
    let o1 = match function {
        // EQ, NEQ
        22 => order == Ordering::Equal,
        23 => order != Ordering::Equal,
        // GT, LT
        24 => order == Ordering::Greater,
        25 => order == Ordering::Less,
        // GEQ, LEQ
        26 => order != Ordering::Less,
        _ => order != Ordering::Greater,
    };
    Shown {
        o0: 0,
        ocout: false,
        ovf: false,
        o1,
    }
}
