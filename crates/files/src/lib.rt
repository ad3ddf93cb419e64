// Files, read into buffers that are lent: what the programs begin with.
#![tactic(auto)]

ghost use Rattle.std.specs.Counts.{IsPrefixLen};

use std::fs;
use std::io::Read;
use std::rt::Files;

// How many bytes of a file were read, which open the buffer: all of it, as far as the buffer holds them. A file that can't be opened is
// empty. Where a read fails, what came before it is what was read.
pub fn load(rt: &impl Files, name: &str, buf: &mut [u8]) -> usize
    ensures { IsPrefixLen result buf.new }
{
    match fs::open(rt, name) {
        Ok(mut file) => read_full(&mut file, buf),
        Err(_) => 0,
    }
}

// Reads until the buffer is full, the file ends or a read fails. No `for`: a step is as long as what a read gives.
fn read_full(file: &mut impl Read, buf: &mut [u8]) -> usize
    ensures { IsPrefixLen result buf.new }
{
    let mut done = 0;
    while done < buf.len() {
        match file.read(&mut buf[done..]) {
            Ok(0) | Err(_) => break,
            Ok(n) => done += n,
        }
    }
    done
}
