//! Laws of the definitions that the contracts of its parts cite.
pub use crate::rows::laws::{
    empty_records_are_compared_and_cloned_whole, references_give_the_same_hint,
    texts_are_their_own, vectors_count_what_they_hold,
};
pub use grid_records_estimate::laws::{
    compact_settings_give_the_same_sizes, estimates_keep_the_least_sizes,
    settings_are_read_as_they_stand, sizes_follow_from_looks, sizes_leave_room,
    sizes_see_what_spans_see, worked_estimates, worked_totals,
};
pub use grid_records_measure::laws::{
    closed_lines_join, cuts_show_their_fronts, lines_are_closed, lines_are_shown_lines,
    lines_come_in_their_order, lines_of_texts, one_list_of_lines, one_longest_front,
    plain_characters_add_up, the_cut_text, trimmed_texts,
};
pub use grid_records_traits::laws::{
    cells_answer_by_their_texts, cells_have_their_texts, references_have_as_many_columns,
    references_have_the_same_rows, references_have_the_same_sizes, sources_have_their_rows,
    texts_have_their_answers,
};
