//! Scenarios as they are taken off a source, up to the limit of their bytes, and numbers as they are
//! taken out of a word.

use crate::rows::holds;
use crate::scenes::judging::read;
use sp_io::{Calls, Fails, MemSource, ReadySource, read_full};
use sp_play::{ScenarioFault, number_of, read_scenario};
use std::alloc::Global;
use std::test::Fail;

/// A text that takes ten calls of seven bytes, and one more that finds the end.
const TEXT: &[u8] = b"grant g 1 to a\ntx p spends g.0 pays 1 to b\nblock A on G\nreport\npairs\n";

/// What is read by seven bytes a call. This call fails.
fn taken(alloc: Global, failing: Option<u32>) -> Result<Result<Vec<u8>, ScenarioFault>, Fail> {
    let fails = match failing {
        Some(call) => Fails::At(Calls::of(Vec::from_slice(alloc, &[call])?)),
        None => Fails::Never,
    };
    let mut source = MemSource::new(Vec::from_slice(alloc, TEXT)?, 7, fails);
    Ok(read_scenario(alloc, &mut source))
}

/// The whole text is read, and nothing where a call fails, be it the last one.
#[test]
fn readings(rt: HostRuntime) -> Result<(), Fail> {
    let whole = taken(rt.alloc(), None)?;
    holds(
        &rt,
        11,
        matches!(&whole, Ok(text) if text.as_slice() == TEXT),
    );
    for call in 0..11u32 {
        let cut = taken(rt.alloc(), Some(call))?;
        holds(
            &rt,
            call as usize,
            matches!(cut, Err(ScenarioFault::ReadFault)),
        );
    }
    Ok(())
}

/// So many pieces of 4,096 line ends, and so many bytes behind them.
fn line_ends(alloc: Global, pieces: u32, rest: &[u8]) -> Result<Vec<u8>, Fail> {
    let piece = [b'\n'; 4_096];
    let mut text = Vec::new(alloc);
    for _ in 0..pieces {
        text.extend_from_slice(&piece)?;
    }
    text.extend_from_slice(rest)?;
    Ok(text)
}

/// What is read of so many line ends, and how many bytes are left to the source.
fn limited(
    alloc: Global,
    pieces: u32,
    rest: &[u8],
) -> Result<(Result<Vec<u8>, ScenarioFault>, usize), Fail> {
    let mut source = ReadySource::new(line_ends(alloc, pieces, rest)?);
    let ended = read_scenario(alloc, &mut source);
    let mut behind = [0u8; 64];
    let left = read_full(&mut source, &mut behind)?;
    Ok((ended, left))
}

/// 16,777,215 bytes are a scenario, here of empty lines alone. Of more, 16,777,216 are taken.
#[test]
fn limits(rt: HostRuntime) -> Result<(), Fail> {
    let alloc = rt.alloc();
    let (ended, left) = limited(alloc, 4_095, &[b'\n'; 4_095])?;
    holds(&rt, 0, left == 0);
    let text = ended.map_err(|_| Fail::from("not read"))?;
    holds(&rt, 1, text.len() == 16_777_215);
    let scene = read(alloc, &text)?;
    holds(&rt, 2, scene.fault().is_none() && scene.len() == 0);
    let too_long = ScenarioFault::TooLong { taken: 16_777_216 };
    let (ended, left) = limited(alloc, 4_096, b"")?;
    holds(
        &rt,
        3,
        matches!(ended, Err(fault) if fault == too_long) && left == 0,
    );
    let (ended, left) = limited(alloc, 4_096, b"four")?;
    holds(
        &rt,
        4,
        matches!(ended, Err(fault) if fault == too_long) && left == 4,
    );
    Ok(())
}

/// A least and a greatest number, a word, and the number in it.
type Number = (u64, u64, &'static [u8], Option<u64>);

#[rattlefmt::skip]
const NUMBERS: &[Number] = &[
    (0, 64, b"0", Some(0)),
    (0, 64, b"64", Some(64)),
    (0, 64, b"65", None),
    (0, 64, b"", None),
    (0, 64, b"00", None),
    (0, 64, b"07", None),
    (0, 64, b"-0", None),
    (0, 64, b"+1", None),
    (0, 64, b"1 ", None),
    (0, 64, b"0x1", None),
    (0, 64, b"/", None),
    (0, 64, b":", None),
    (1, 16, b"0", None),
    (1, 16, b"1", Some(1)),
    (1, 16, b"16", Some(16)),
    (1, 16, b"17", None),
    (0, 18446744073709551615, b"18446744073709551615", Some(18446744073709551615)),
    (0, 18446744073709551615, b"18446744073709551616", None),
    (0, 18446744073709551615, b"18446744073709551620", None),
    (0, 18446744073709551615, b"28446744073709551615", None),
    (0, 18446744073709551615, b"184467440737095516150", None),
    (0, 18446744073709551615, b"99999999999999999999999999999999999999999999", None),
    (5, 4, b"5", None),
];

#[test]
fn numbers(rt: HostRuntime) -> Result<(), Fail> {
    for (row, (low, high, word, number)) in NUMBERS.iter().enumerate() {
        holds(&rt, row, number_of(*low, *high, word) == *number);
    }
    Ok(())
}
