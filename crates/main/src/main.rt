#![tactic(auto)]
// The program that is delivered: it runs the program, policy and memory of the folder that it is started in, and prints the
// answer. It reads of each file as much as decides the number (the model's `cut_printed`), so a longer one need not fit.
ghost use Rattle.std.specs.Prelude.{◌≡◌, length, take, IfSome};
ghost use Rattle.std.specs.Counts.{IsPrefixLen};
ghost use Rattle.model.specs.Text.{printed, policy_cut, program_cut, memory_cut};
ghost use Rattle.main.specs.Reading.{ReadsStart};

use shared::limit;
use std::io::{Read, Write};
use std::rt::Files;
use std::{fs, io};

// Of a file as much as decides its number is read: one byte more than the longest that is accepted.
const POLICY_BYTES: usize = limit::HEAD_BYTES + limit::FIELD_BYTES * (limit::ROLES as usize) + 1;

const PROGRAM_BYTES: usize = limit::PROGRAM_BYTES + 1;

const MEMORY_BYTES: usize = 4 * (limit::VARIABLES as usize) + 1;

// Room for the text of every answer.
const TEXT_BYTES: usize = 2048;

// Room for each file. Kept as three: each promises the length that the model has for its own file.
fn policy_room() -> [u8; POLICY_BYTES]
    ensures { policy_cut ≡ length result }
{
    [0; POLICY_BYTES]
}

fn program_room() -> [u8; PROGRAM_BYTES]
    ensures { program_cut ≡ length result }
{
    [0; PROGRAM_BYTES]
}

fn memory_room() -> [u8; MEMORY_BYTES]
    ensures { memory_cut ≡ length result }
{
    [0; MEMORY_BYTES]
}

// Fills the buffer, or comes to the file's end. A file that cannot be read to there counts as empty.
fn read_all<R: Read>(file: &mut R, buffer: &mut [u8]) -> usize
    ensures counts { IsPrefixLen result buffer.new }
    ensures start { IfSome (R.remaining file.old) (ReadsStart result buffer.new) }
{
    let mut done = 0;
    while done < buffer.len() {
        let Ok(more) = file.read(&mut buffer[done..]) else {
            return 0;
        };
        if more == 0 {
            return done;
        }
        done += more;
    }
    done
}

// The start of a file in the folder. A missing file counts as empty.
fn read_file(rt: &impl Files, name: &str, buffer: &mut [u8]) -> usize
    ensures { IsPrefixLen result buffer.new }
{
    match fs::open(rt, name) {
        Ok(mut file) => read_all(&mut file, buffer),
        Err(_) => 0,
    }
}

// The text of the answer, and its length. Kept in place of `println!`: no contract says what a terminal gets, and this one says
// which bytes are handed over.
fn answer(
    policy: &mut [u8],
    program: &[u8],
    memory: &mut [u8],
    text: &mut [u8; TEXT_BYTES],
) -> usize
    ensures counts { IsPrefixLen result text.new }
    ensures whole { take result text.new ≡ printed policy.old program.now memory.old }
{
    let end = run::run::run(policy, program, memory, limit::FUEL);
    report::lines::write_report(text, end.number, end.units, memory)
}

fn main(rt: HostRuntime) -> io::Result<()> {
    let mut policy = policy_room();
    let mut program = program_room();
    let mut memory = memory_room();
    let policy_length = read_file(&rt, "policy.rxt", &mut policy);
    let program_length = read_file(&rt, "program.rxp", &mut program);
    let memory_length = read_file(&rt, "memory.rxm", &mut memory);
    let mut text = [0; TEXT_BYTES];
    let length = answer(
        &mut policy[..policy_length],
        &program[..program_length],
        &mut memory[..memory_length],
        &mut text,
    );
    io::writer(&rt).write_all(&text[..length])
}
