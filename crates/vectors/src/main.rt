// Command chains run through the library, and what happened, a line for each. The lines in the file
// stdout were worked out by hand from the papers, and not by running a unit: where one differs, ask
// the papers. The tables' comments say what each vector asks, and why its line is what it is.
//
// A vector is a word that says
//     setting (2 digits), bytes of chain, of answers, of main storage (4 digits each), and a digit
//     each for how many words of main storage and how many places to show follow after the chain
// then, with setting 80, a word about its device and words of the map; then its chain, a word to a
// CCW, then the first words of main storage, then the places to show.
// Settings are added up:
//     01 not ready   02 read-only   04 unit, main storage and store as the vector before left them
//     08 the unit's counts are one short of their largest   40 "yes" is 80 in the record, and not 1
//     10 a store of one block   20 a store of no bytes   30 a store of 513 bytes
//     80 the device has alternates: its word says how many (8 digits), how many blocks the store has
//     in all (4 digits), and for the map, two entries to a word, which word of it the vector gives
//     first and how many (2 digits each). Its other words are 0, or as the vector before left them
// Where none says otherwise the unit is new and ready, the store has 8 blocks and no alternates, the
// map is 0, block i is filled with byte i, and main storage is FF past the given words. All answers
// start as AA.
// A place to show is what (A answers, B store, C the record's counts, D main storage, E all sense, F
// the record's map, four bytes to an entry), where (4 digits), and how many bytes (4 digits).
//
// A line has the vector's number, the call's cause, the commands reached (each piece reached counts as
// one), for each of these its answer (both statuses, residual, cause and a zero, blocks moved;
// hexadecimal, so that cause 20 is 14), sense bytes 0, 1 and 7, of a refused call whether the record
// was kept, and what was to be shown. Counts are blocks read, blocks written with check, access
// movements.
#![tactic(auto)]

mod alternate_blocks;
mod calls;
mod ccws;
mod checks;
mod extents;
mod listed;
mod locates;
mod pieces;
mod play;
mod senses;
mod show;
mod transfers;
mod vector;

use std::io;

fn main(rt: HostRuntime) -> io::Result<()> {
    let groups: [(&str, &[u64]); 9] = [
        ("The call: causes 1 to 5", &calls::VECTORS),
        ("Program checks: causes 13, 10, 11 and 12", &checks::VECTORS),
        ("Ready, and listed: causes 44 and 43", &listed::VECTORS),
        ("DEFINE EXTENT: causes 20 to 26", &extents::VECTORS),
        ("LOCATE: causes 30 to 39", &locates::VECTORS),
        (
            "READ IPL, READ and WRITE: causes 40 to 42",
            &transfers::VECTORS,
        ),
        ("SENSE, SENSE TYPE and the log", &senses::VECTORS),
        ("Data chaining: commands in pieces", &pieces::VECTORS),
        (
            "Alternates for defective blocks: causes 2, 8, 39 and 42",
            &alternate_blocks::VECTORS,
        ),
    ];
    for (n, (title, table)) in (1u64..).zip(groups) {
        play::group(&rt, n, title, table)?;
    }
    Ok(())
}
