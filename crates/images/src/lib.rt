//! Example chips, page by page, and how their pages get into an image.
//!
//! An example is a list of `Placed` pages: what each says, where it stands, and what happens to its
//! bytes on the way. `write` programs such a list. The examples are grouped by what they show.

#![tactic(auto)]

mod bytes;
mod damaged;
mod foreign;
mod placed;
mod stored;
mod writing;

pub use bytes::{ImageFault, page_bytes};
pub use damaged::{
    bad_names, below_the_floor, chunk_at_the_end, chunk_of_a_directory, directories_in_a_ring,
    directory_is_a_file, directory_missing, fields_out_of_range, nine_names, one_name_twice,
    one_number_twice, seventeen_keys, sixty_one_files,
};
pub use foreign::{
    entry_before_its_directory, floor_and_erase_cut_a_group, floor_cuts_a_group, floor_falls,
    group_across_blocks, group_of_two_sizes, longest_path, number_used_again, numbers_with_gaps,
    pages_in_any_place, sixteen_keys, sixty_files, unlisted_bits_at_0,
};
pub use placed::{Manner, Placed, at};
pub use stored::{cut_short_group, gone_below_the_floor, next_number_taken, plain, torn_last_page};
pub use writing::{put, write};
