// The examples, as examples/as_tests writes them.
pub mod diamond;
pub mod doubled_cell;
pub mod phase_transition;
pub mod point_group_at_gamma;
pub mod screw_axis_at_the_zone_face;
pub mod selection_rules;
pub mod table_by_hand;
pub mod time_reversal;
