// Lists the example chips one after another: a heading, then what `list_image` would print of it.

#![tactic(auto)]

use flash::{Fuse, IMAGE_BLOCK_BYTES, ImageFlash};
use images::{
    Placed, at, bad_names, below_the_floor, chunk_at_the_end, chunk_of_a_directory,
    cut_short_group, directories_in_a_ring, directory_is_a_file, directory_missing,
    entry_before_its_directory, fields_out_of_range, floor_and_erase_cut_a_group,
    floor_cuts_a_group, floor_falls, gone_below_the_floor, group_across_blocks, group_of_two_sizes,
    longest_path, next_number_taken, nine_names, number_used_again, numbers_with_gaps,
    one_name_twice, one_number_twice, pages_in_any_place, plain, seventeen_keys, sixteen_keys,
    sixty_files, sixty_one_files, torn_last_page, unlisted_bits_at_0, write,
};
use listing::{LISTING_BYTES, put_answer};
use std::io::Write;

fn show(rt: &HostRuntime, name: &str, blocks: usize, pages: &[Placed]) -> anyhow::Result<()> {
    let mut image = vec![in rt.alloc(); 0xffu8; blocks.saturating_mul(IMAGE_BLOCK_BYTES)]?;
    let mut flash = ImageFlash::new(&mut image, Fuse::Intact);
    write(&mut flash, pages)?;
    let mut text = [0; LISTING_BYTES];
    let end = put_answer(&flash, &mut text);
    println!(rt; "# {name}")?;
    rt.stdout().write_all(&text[0..end])?;
    Ok(())
}

fn show_all(rt: &HostRuntime, examples: &[(&str, usize, &[Placed])]) -> anyhow::Result<()> {
    for (name, blocks, pages) in examples {
        show(rt, name, *blocks, pages)?;
    }
    Ok(())
}

fn show_stored(rt: &HostRuntime) -> anyhow::Result<()> {
    show_all(
        rt,
        &[
            ("plain", 4, &plain()),
            ("a group cut short", 4, &cut_short_group()),
            ("its next number taken", 4, &next_number_taken()),
            ("a torn last page", 4, &torn_last_page()),
            ("a gone page below the floor", 4, &gone_below_the_floor()),
        ],
    )
}

fn show_foreign(rt: &HostRuntime) -> anyhow::Result<()> {
    show_all(
        rt,
        &[
            ("a group across blocks", 4, &group_across_blocks()),
            ("numbers with gaps", 4, &numbers_with_gaps()),
            ("a group of two sizes", 4, &group_of_two_sizes()),
            ("a floor that cuts a group", 4, &floor_cuts_a_group()),
            (
                "a floor and an erase that cut a group",
                4,
                &floor_and_erase_cut_a_group(),
            ),
            ("a floor that falls", 4, &floor_falls()),
            ("pages in any place", 4, &pages_in_any_place()),
            (
                "an entry before its directory",
                4,
                &entry_before_its_directory(),
            ),
            ("a file number used again", 4, &number_used_again(1)),
            ("unlisted bits at 0", 4, &unlisted_bits_at_0()),
            ("the longest path and file", 16, &longest_path()),
            ("sixty files", 8, &sixty_files()),
            ("sixteen keys in four blocks", 4, &sixteen_keys()),
        ],
    )
}

fn show_pages(rt: &HostRuntime, damaged: &[(&str, Placed)]) -> anyhow::Result<()> {
    for (name, page) in damaged {
        show(rt, name, 4, &[*page])?;
        show(rt, "below the floor", 4, &below_the_floor(*page))?;
    }
    Ok(())
}

fn show_damaged(rt: &HostRuntime) -> anyhow::Result<()> {
    show_all(
        rt,
        &[
            ("one number twice", 4, &one_number_twice()),
            ("a directory that is missing", 4, &directory_missing()),
            ("a directory that is a file", 4, &directory_is_a_file()),
            ("directories in a ring", 4, &directories_in_a_ring()),
            ("nine names", 4, &nine_names()),
            ("one name twice", 4, &one_name_twice()),
            ("a chunk at the end of its file", 4, &chunk_at_the_end()),
            (
                "a chunk that came back to a file of no bytes",
                4,
                &number_used_again(0),
            ),
            ("a chunk of a directory", 4, &chunk_of_a_directory()),
            ("sixty-one files", 8, &sixty_one_files()),
            ("seventeen keys in four blocks", 4, &seventeen_keys()),
        ],
    )
}

fn show_refused(rt: &HostRuntime) -> anyhow::Result<()> {
    show_all(
        rt,
        &[
            ("three blocks", 3, &plain()),
            ("seventeen blocks", 17, &plain()),
            ("sixteen blocks", 16, &plain()),
            ("all erased", 4, &[]),
            ("no page but a spoilt one", 4, &[at(0, 1).torn(9)]),
        ],
    )
}

fn main(rt: HostRuntime) -> anyhow::Result<()> {
    show_stored(&rt)?;
    show_foreign(&rt)?;
    show_pages(&rt, &fields_out_of_range())?;
    show_pages(&rt, &bad_names())?;
    show_damaged(&rt)?;
    show_refused(&rt)
}
