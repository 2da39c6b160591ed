#![tactic(auto)]
// Laws, each the contract of a function that does nothing.
mod old; // what the desk of the limits before these answers
mod rules; // what the four rules give, and what they speak of
mod texts; // what texts are, and what holds of all sheets
mod calls; // over several calls

pub use calls::{
    crossed_routed, least_of_calls, matrix_to_table_to_matrix, routed_as_named, routed_checked,
    routed_counted, routed_judged, sheet_there_and_back, table_there_and_back,
    table_to_matrix_to_table,
};
pub use old::{old_desk, same_bytes};
pub use rules::{
    across_numbers, directions_rule, fronts_and_backs, largest_cut_rule, line_sizes,
    loads_and_peaks, paper_loads_and_cuts, parallel_pairs_rule, parallel_rows, places_of_four,
    sending_rule,
};
pub use texts::{
    accepted_matrix, cases_as_promised, cases_hold, digits_of_figures, falling_order,
    judged_in_range, lines_of_a_shape, lines_of_a_text, no_lower_peak, numbers_spelled,
    plan_accepted, reason_numbers, ring_lines, rows_of_a_matrix, same_sheet, true_sheet_accepted,
    turned_cases_hold, well_formed_sheet,
};
