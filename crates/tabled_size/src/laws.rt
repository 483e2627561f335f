//! Laws of the definitions that the contracts of its parts cite.
pub use crate::dimension::laws::{
    changes_clear_sizes, copies_are_the_same, equal_sizes_are_the_same, equal_values_are_the_same,
    estimates_fill_what_is_not_set, given_sizes_stay, sizes_are_made_and_parted, sizes_by_number,
    worked_sizes,
};
pub use tabled_size_priority::laws::{
    levels_are_named, narrowest_first_is_best, one_grown_list, one_shrunk_list,
    priorities_are_compared_and_cloned_whole, priorities_name_their_columns, sides_are_kept,
    widest_first_is_best, worked_growths, worked_shrinks,
};
pub use tabled_size_wrap::laws::{
    fewest_runs, one_list_of_runs, one_wrapped_text, the_cut_text, the_wrapped_text,
    units_are_compared_and_cloned_whole, units_make_up_the_line, worked_cuts, worked_wraps,
    wrapped_lines_fit, wrapped_lines_show_their_runs, wrapping_adds_line_feeds,
};
