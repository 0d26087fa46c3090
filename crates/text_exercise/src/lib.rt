// A chain as text, and what happened as text: `exercise`. Any input gets its answer; one with a wrong line gets that line's number.
#![tactic(auto)]

ghost use Rattle.std.specs.Prelude.{◌≡◌, ◌*◌, ◌≤◌, length};
ghost use Rattle.text_digits.specs.Output.{Adds};
ghost use Rattle.text_output.specs.Printout.{printout};
ghost use Rattle.text_input.specs.Input.{most_blocks, most_chain, lines, wrong_line, exercise_in};
ghost use Rattle.text_exercise.specs.Exercise.{device, new_store, new_unit, exercised, exercise};

use in_place::run_lending;
use model::record::UnitRecord;
use model::sizes;
use record::new_record;
use text_input::{
    MOST_BLOCKS, MOST_CHAIN, MOST_STORAGE, Settings, chain_in, settings_in, storage_in, wrong_line,
};

// The bytes of the largest store.
const MOST_STORE: usize = MOST_BLOCKS * sizes::BLOCK;

// A run's code is the one number that C is given: this many times the call's cause, plus the commands reached.
const PER_CAUSE: usize = 256;

// The device's alternates.
const ALTERNATES: u32 = 0;

// Block i of the store is filled with byte i.
fn number_blocks(store: &mut [u8], blocks: usize)
    requires { (length store.old ≡ blocks * device.block) × (blocks ≤ most_blocks) }
    ensures { store.new ≡ new_store blocks }
{
    for i in 0..blocks {
        let at = i * sizes::BLOCK;
        store[at..at + sizes::BLOCK].fill(i as u8);
    }
}

// A new unit, as the settings have it.
fn new_unit(s: Settings) -> UnitRecord
    ensures { result ≡ new_unit s }
{
    UnitRecord {
        unit: new_record(s.ready, s.readonly),
        map: [0u8; sizes::MAP],
    }
}

// Runs the chain on a new device, as the settings have it, and prints what happened.
fn run(s: Settings, output: &mut [u8], chain: &[u8], main: &mut [u8]) -> usize
    requires { (s.blocks ≤ most_blocks) × (length chain.now ≤ most_chain) }
    ensures { Adds output.old 0 (printout (exercised (record { settings = s; storage = main.old; chain = chain.now }))) result output.new }
{
    let mut blocks = [0u8; MOST_STORE];
    let store = &mut blocks[..s.blocks * sizes::BLOCK];
    number_blocks(store, s.blocks);
    let mut zeros = [0u8; MOST_CHAIN];
    let answers = &mut zeros[..chain.len()];
    let ran = run_lending(new_unit(s), chain, main, store, ALTERNATES, answers);
    let code = ran.code as usize;
    let left = ran.unit.unit;
    text_output::print(
        output,
        code / PER_CAUSE,
        code % PER_CAUSE,
        answers,
        main,
        &left.sense,
    )
}

// An input with no wrong line: its chain and its main storage are read and run.
fn run_input(input: &[u8], output: &mut [u8]) -> usize
    requires { wrong_line input.now ≡ 0 }
    ensures { Adds output.old 0 (printout (exercised (exercise_in (lines input.now)))) result output.new }
{
    let mut chain = [0u8; MOST_CHAIN];
    let mut main = [0u8; MOST_STORAGE];
    let n = chain_in(input, &mut chain);
    let m = storage_in(input, &mut main);
    run(settings_in(input), output, &chain[..n], &mut main[..m])
}

// What `exercise` prints for an input goes to the output, as much of it as fits; it returns how many bytes that is.
#[tactic(auto, unfolding(crate::specs::Exercise::exercise, numbers::specs::Choice::pick))]
pub fn exercise(input: &[u8], output: &mut [u8]) -> usize
    ensures { Adds output.old 0 (exercise input.now) result output.new }
{
    match wrong_line(input) {
        Some(n) => text_output::print_refused(output, n),
        None => run_input(input, output),
    }
}
