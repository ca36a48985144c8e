// How long it takes to read a message and to write it.
#![tactic(auto)]

use anyhow::anyhow;
use decode::reading::read;
use encode::write;
use isup::message::{Circuit, Message};
use script::octets;
use std::env;
use std::time::Instant;

const USAGE: &str = "usage: speed OCTETS N          reads the message N times
       speed write OCTETS N    reads it once and writes it N times
";

// How many of the readings gave a message; the call changes with each, so that none can be left out. What a turn changes
// is lent to the next, so the readings are counted by a loop and not by a filter.
fn read_times(octets: &mut [u8], count: u64) -> u64 {
    let mut accepted: u64 = 0;
    for _ in 0..count {
        if let Some(low) = octets.first_mut() {
            *low ^= 0x08;
        }
        if read(octets).is_ok() {
            accepted = accepted.saturating_add(1);
        }
    }
    accepted
}

// The sum of the counts and first octets written. The call changes with each writing, so that none can be left out: k is
// the number of the turn, and goes over no list.
fn write_times(message: &Message, memory: &mut [u8], count: u64) -> u64 {
    let mut sum: u64 = 0;
    for k in 0..count {
        let Some(circuit) = Circuit::new((k % 64) as u8, 0) else {
            return sum;
        };
        if let Ok(len) = write(circuit, message, memory) {
            sum = sum.saturating_add(len as u64);
        }
        if let Some(first) = memory.first() {
            sum = sum.saturating_add(*first as u64);
        }
    }
    sum
}

// What the work gives, and how many nanoseconds each of its turns took.
fn timed<F: FnOnce() -> u64>(rt: &HostRuntime, count: u64, work: F) -> anyhow::Result<(u64, u128)>
    requires { F.IsAlwaysCallable work }
{
    let start = Instant::now(rt)?;
    let given = work();
    let each = start.elapsed(rt)?.as_nanos() / count.max(1) as u128;
    Ok((given, each))
}

fn time_reading(rt: &HostRuntime, octets: &mut [u8], count: u64) -> anyhow::Result<()> {
    let (accepted, each) = timed(rt, count, || read_times(octets, count))?;
    if accepted != count {
        println!(rt; "a message in {accepted} of {count} readings")?;
    }
    println!(rt; "read: {each} ns each")?;
    Ok(())
}

fn time_writing(rt: &HostRuntime, octets: &[u8], count: u64) -> anyhow::Result<()> {
    let (_, message) = read(octets).map_err(|_| anyhow!("the octets are no message"))?;
    let mut memory = [0u8; 64];
    let (sum, each) = timed(rt, count, || write_times(&message, &mut memory, count))?;
    if sum == 0 {
        return Err(anyhow!("nothing was written"));
    }
    println!(rt; "write: {each} ns each")?;
    Ok(())
}

// The octets that a word spells.
fn octets_of(rt: &HostRuntime, word: &str) -> anyhow::Result<Vec<u8>> {
    let spelt = octets(rt.alloc(), &[word]);
    if let Err(error) = &spelt {
        eprintln!(rt; "speed: {error}")?;
    }
    spelt.map_err(|_| anyhow!("no octets"))
}

fn main(rt: HostRuntime) -> anyhow::Result<()> {
    let arguments: Vec<String> = env::args(&rt)?.skip(1).collect(rt.alloc())?;
    match arguments.as_slice() {
        [word, count] => {
            let count = count.as_str().parse()?;
            let mut octets = octets_of(&rt, word.as_str())?;
            time_reading(&rt, octets.as_mut_slice(), count)
        }
        [write, word, count] if write.as_str() == "write" => {
            let count = count.as_str().parse()?;
            let octets = octets_of(&rt, word.as_str())?;
            time_writing(&rt, octets.as_slice(), count)
        }
        _ => {
            print!(rt; "{USAGE}")?;
            Ok(())
        }
    }
}
