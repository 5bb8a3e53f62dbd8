//! How the rows of a table are found: a label as two words, and the places that are tried for two words.
#![tactic(auto)]

mod keys;
mod laws;
mod places;
mod rows;

pub use keys::{pack1, pack2, unpack};
pub use laws::{labels_pack_one_to_one, turns_give_each_place_once};
pub use places::{first_place, next_place, place};
pub use rows::Rows;

#[cfg(test)]
mod tests {
    use super::*;
    use acct_base::Label;

    #[test]
    fn a_label_packs_and_unpacks(rt: HostRuntime) {
        let label = Label {
            uid: 10050,
            tag: 0,
            set: 0,
            iface: 2,
        };
        assert_eq!(rt; pack1(&label), 10051 * 4294967296);
        assert_eq!(rt; pack2(&label), 4);
        assert_eq!(rt; unpack(10051 * 4294967296, 4), Some(label));
        assert_eq!(rt; unpack(10051 * 4294967296, 1), None);
    }

    #[test]
    fn one_row_is_tried_once(rt: HostRuntime) {
        assert_eq!(rt; place(10051 * 4294967296, 4, 0, 1), 0);
    }

    // Worked out apart: the upper half of the hash of this label's words is 1424799544.
    #[test]
    fn places_start_by_hash_and_go_round(rt: HostRuntime) {
        let (k1, k2) = (10051 * 4294967296, 4);
        for (turn, rows, found) in [
            (0, 5_000, 4544),
            (1, 5_000, 4545),
            (456, 5_000, 0),
            (0, 2, 0),
        ] {
            assert_eq!(rt; place(k1, k2, turn, rows), found, "at turn {turn}");
        }
        assert_eq!(rt; first_place(k1, k2, &Rows::new(5_000)), 4544);
        assert_eq!(rt; next_place(4_999, 5_000), 0);
    }

    // The quotient of 3 by the reciprocal of 3, which is rounded down, is one too small.
    #[test]
    fn a_remainder_comes_without_a_division(rt: HostRuntime) {
        let rows = Rows::new(3);
        assert_eq!(rt; rows.count(), 3);
        assert_eq!(rt; rows.remainder(2), 2);
        assert_eq!(rt; rows.remainder(3), 0);
        assert_eq!(rt; Rows::new(1).remainder(4_294_967_295), 0);
    }
}
