//! Lines that have two reasons for a fault or more, of which the first one counts, and forms that could
//! be read in another way.

use crate::scenes::judging::behind;
use sp_play::Why;
use std::test::Fail;

/// The reason that is judged first.
#[rattlefmt::skip]
const ORDERS: &[(&[u8], Why)] = &[
    (b"Pairs \x01", Why::Byte),
    (b"bits \x01", Why::Byte),
    (b"vote \x7f", Why::Byte),
    (b"make A on \x01", Why::Byte),
    (b"pair A A", Why::Command),
    (b"bits", Why::Late),
    (b"bits 99", Why::Late),
    (b"grant on 0 to", Why::Late),
    (b"grant on 0 to w", Why::Late),
    (b"grant g 1 to w", Why::Late),
    (b"make on on", Why::Form),
    (b"make A on", Why::Form),
    (b"vote A B C", Why::Form),
    (b"send", Why::Form),
    (b"tx on spends g.1 pays", Why::Form),
    (b"tx q spends z.0 pays 0 at w", Why::Form),
    (b"balance wwwwwwwwwwwwwwwwwwwwwwwwwwwwwwwwwwwwwwwwwwwwwwwwwwwwwwwwwwwwwwwww b", Why::Form),
    (b"state z z", Why::Form),
    (b"make on on Z", Why::Name),
    (b"make B. on A A", Why::Name),
    (b"tx q. spends g.1 pays 0 to w", Why::Name),
    (b"tx with spends z.0 pays 1 to wwwwwwwwwwwwwwwwwwwwwwwwwwwwwwwwwwwwwwwwwwwwwwwwwwwwwwwwwwwwwwwww", Why::Name),
    (b"make A on Z", Why::Taken),
    (b"make A on G G", Why::Taken),
    (b"tx p spends z.0 pays 0 to w", Why::Taken),
    (b"tx A spends g.1 pays 1 to wwwwwwwwwwwwwwwwwwwwwwwwwwwwwwwwwwwwwwwwwwwwwwwwwwwwwwwwwwwwwwwww", Why::Taken),
    (b"tx p spends g.0 pays 90 to carol", Why::Taken),
    (b"make B on Z A A", Why::Unknown),
    (b"make B on A A Z", Why::Repeat),
    (b"make B on G carries z p p", Why::Unknown),
    (b"make B on G carries p p z", Why::Repeat),
    (b"make B on A A carries z", Why::Repeat),
    (b"make B on Z carries p p", Why::Unknown),
    (b"tx q spends z.0 pays 0 to w", Why::Unknown),
    (b"tx q spends z.0 with wwwwwwwwwwwwwwwwwwwwwwwwwwwwwwwwwwwwwwwwwwwwwwwwwwwwwwwwwwwwwwwww pays 1 to w", Why::Unknown),
    (b"tx q spends z.0 z.0 pays 1 to w", Why::Unknown),
    (b"tx q spends g.1 g.1 z.0 pays 1 to w", Why::Repeat),
    (b"tx q spends g.1 g.1 pays 0 to w", Why::Repeat),
    (b"tx q spends g.1 g.1 with wwwwwwwwwwwwwwwwwwwwwwwwwwwwwwwwwwwwwwwwwwwwwwwwwwwwwwwwwwwwwwwww pays 1 to w", Why::Repeat),
    (b"tx q spends g.1 with wwwwwwwwwwwwwwwwwwwwwwwwwwwwwwwwwwwwwwwwwwwwwwwwwwwwwwwwwwwwwwwww g.1 pays 1 to w", Why::Word),
    (b"tx q spends g.1 with wwwwwwwwwwwwwwwwwwwwwwwwwwwwwwwwwwwwwwwwwwwwwwwwwwwwwwwwwwwwwwwww z.0 pays 1 to w", Why::Word),
    (b"tx q spends g.1 with wwwwwwwwwwwwwwwwwwwwwwwwwwwwwwwwwwwwwwwwwwwwwwwwwwwwwwwwwwwwwwwww pays 0 to w", Why::Word),
    (b"tx q spends g.1 pays 0 to wwwwwwwwwwwwwwwwwwwwwwwwwwwwwwwwwwwwwwwwwwwwwwwwwwwwwwwwwwwwwwwww", Why::Number),
    (b"tx q spends g.1 pays 1 to wwwwwwwwwwwwwwwwwwwwwwwwwwwwwwwwwwwwwwwwwwwwwwwwwwwwwwwwwwwwwwwww 0 to w", Why::Word),
    (b"tx q spends g.1 pays 9223372036854775807 to w 9223372036854775807 to wwwwwwwwwwwwwwwwwwwwwwwwwwwwwwwwwwwwwwwwwwwwwwwwwwwwwwwwwwwwwwwww", Why::Word),
    (b"tx q spends g.1 pays 9223372036854775807 to w 1 to w 0 to w", Why::Number),
];

#[test]
fn orders(rt: HostRuntime) -> Result<(), Fail> {
    for (row, (line, why)) in ORDERS.iter().enumerate() {
        behind(&rt, rt.alloc(), row, line, Some(*why), 0)?;
    }
    Ok(())
}

/// Key words at the places of names, outputs and words; the spelling of a place among outputs; and spends that
/// leave no room for a payment. None of these lines adds a message.
#[rattlefmt::skip]
const READINGS: &[(&[u8], Option<Why>)] = &[
    (b"tx q spends with pays 1 to w", Some(Why::Unknown)),
    (b"tx q spends with with w pays 1 to w", Some(Why::Unknown)),
    (b"tx q spends pays pays 1 to w", Some(Why::Unknown)),
    (b"tx q spends pays with w pays 1 to w", Some(Why::Unknown)),
    (b"tx q spends g.1 with with pays 1 to w", None),
    (b"tx q spends g.1 with w with pays 1 to w", Some(Why::Unknown)),
    (b"tx q spends g.1 with w with with w pays 1 to w", Some(Why::Unknown)),
    (b"tx q spends g.1 with pays pays 1 to w", None),
    (b"tx q spends g.1 with on pays 1 to with", None),
    (b"tx q spends pays 1 to w", Some(Why::Form)),
    (b"tx q spends g.1 pays pays 1 to w", Some(Why::Form)),
    (b"tx q spends g.1 pays 1 to pays 2 to to", None),
    (b"make B on carries", Some(Why::Unknown)),
    (b"make B on carries G", Some(Why::Unknown)),
    (b"make B on carries carries p", Some(Why::Unknown)),
    (b"make B on carries carries", Some(Why::Form)),
    (b"make B on G carries carries", Some(Why::Unknown)),
    (b"make B on G carries p carries", Some(Why::Unknown)),
    (b"make B on on", Some(Why::Unknown)),
    (b"tx q spends g.01 pays 1 to w", Some(Why::Unknown)),
    (b"tx q spends g.00 pays 1 to w", Some(Why::Unknown)),
    (b"tx q spends g.256 pays 1 to w", Some(Why::Unknown)),
    (b"tx q spends g.-1 pays 1 to w", Some(Why::Unknown)),
    (b"tx q spends g.+1 pays 1 to w", Some(Why::Unknown)),
    (b"tx q spends g.x pays 1 to w", Some(Why::Unknown)),
    (b"tx q spends g.18446744073709551617 pays 1 to w", Some(Why::Unknown)),
    (b"tx q spends g.1 g.0", Some(Why::Form)),
    (b"tx q spends g.1 g.0 pays", Some(Why::Form)),
    (b"tx q spends g.1 g.0 with pays", Some(Why::Form)),
    (b"tx q spends z with", Some(Why::Form)),
];

#[test]
fn readings(rt: HostRuntime) -> Result<(), Fail> {
    for (row, (line, why)) in READINGS.iter().enumerate() {
        behind(&rt, rt.alloc(), row, line, *why, 0)?;
    }
    Ok(())
}
