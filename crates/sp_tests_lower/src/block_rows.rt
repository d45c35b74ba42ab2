//! Bytes by their parts, and what is read of them: the blocks that a byte more or less makes a fault.

use crate::block_parts::Part;
use sp_block::{BlockFault, ReadBlockFault};
use sp_form::ReadFault;
use sp_tx::TxFault;

/// The faults.
pub const TOO_LONG: ReadBlockFault = ReadFault::Fault(BlockFault::TooLong);

pub const SHORT: ReadBlockFault = ReadFault::Fault(BlockFault::Short);

pub const VERSION: ReadBlockFault = ReadFault::Fault(BlockFault::Version);

pub const PARENT_COUNT: ReadBlockFault = ReadFault::Fault(BlockFault::ParentCount);

pub const PARENT_ORDER: ReadBlockFault = ReadFault::Fault(BlockFault::ParentOrder);

pub const TX_COUNT: ReadBlockFault = ReadFault::Fault(BlockFault::TxCount);

pub const TX_SHORT: ReadBlockFault = ReadFault::Fault(BlockFault::Tx(TxFault::Short));

pub const TX_INPUT_COUNT: ReadBlockFault = ReadFault::Fault(BlockFault::Tx(TxFault::InputCount));

pub const TX_INPUT_ORDER: ReadBlockFault = ReadFault::Fault(BlockFault::Tx(TxFault::InputOrder));

pub const TX_PREIMAGE: ReadBlockFault = ReadFault::Fault(BlockFault::Tx(TxFault::PreimageLength));

pub const TX_OUTPUT_COUNT: ReadBlockFault = ReadFault::Fault(BlockFault::Tx(TxFault::OutputCount));

pub const TX_AMOUNT: ReadBlockFault = ReadFault::Fault(BlockFault::Tx(TxFault::Amount));

pub const TX_SUM: ReadBlockFault = ReadFault::Fault(BlockFault::Tx(TxFault::Sum));

pub const GRANT_FAULT: ReadBlockFault = ReadFault::Fault(BlockFault::Grant);

pub const SAME_TX: ReadBlockFault = ReadFault::Fault(BlockFault::SameTx);

pub const SAME_OUTPOINT: ReadBlockFault = ReadFault::Fault(BlockFault::SameOutpoint);

pub const TRAILING: ReadBlockFault = ReadFault::Fault(BlockFault::Trailing);

/// Whether they are read as genesis, a block's parts, and how many transactions it has, or the fault.
pub type Row = (bool, &'static [Part], Result<usize, ReadBlockFault>);

#[rattlefmt::skip]
pub const ROWS: &[Row] = &[
    (true, &[Part::Head, Part::Bytes(&[0, 0, 0])], Ok(0)),
    (true, &[], Err(SHORT)),
    (false, &[Part::Bytes(&[0])], Err(VERSION)),
    (true, &[Part::Bytes(&[2])], Err(VERSION)),
    // No parents in genesis, 1 to 64 in others.
    (true, &[Part::Head, Part::Bytes(&[1])], Err(PARENT_COUNT)),
    (true, &[Part::Head, Part::Bytes(&[1]), Part::Low, Part::Bytes(&[0, 0])], Err(PARENT_COUNT)),
    (false, &[Part::Head, Part::Bytes(&[0, 0, 0])], Err(PARENT_COUNT)),
    (false, &[Part::Head, Part::Bytes(&[1])], Err(SHORT)),
    (false, &[Part::Head, Part::Bytes(&[64])], Err(SHORT)),
    (false, &[Part::Head, Part::Bytes(&[65])], Err(PARENT_COUNT)),
    (false, &[Part::Head, Part::Bytes(&[255])], Err(PARENT_COUNT)),
    // Parents ascend.
    (false, &[Part::Head, Part::Bytes(&[2]), Part::Low, Part::High, Part::Bytes(&[0, 0])], Ok(0)),
    (false, &[Part::Head, Part::Bytes(&[2]), Part::Low, Part::Low], Err(PARENT_ORDER)),
    (false, &[Part::Head, Part::Bytes(&[2]), Part::High, Part::Low], Err(PARENT_ORDER)),
    (false, &[Part::Head, Part::Bytes(&[3]), Part::Low, Part::High, Part::Low], Err(PARENT_ORDER)),
    (false, &[Part::Head, Part::Bytes(&[2]), Part::High, Part::Low, Part::Bytes(&[1, 1])], Err(PARENT_ORDER)),
    // At most 256 transactions.
    (true, &[Part::Head, Part::Bytes(&[0, 0, 1])], Err(TX_SHORT)),
    (true, &[Part::Head, Part::Bytes(&[0, 1, 1])], Err(TX_COUNT)),
    (true, &[Part::Head, Part::Bytes(&[0, 0, 255])], Err(TX_COUNT)),
    // Each by the format of transactions.
    (true, &[Part::Head, Part::Bytes(&[0, 1, 0])], Err(TX_SHORT)),
    (true, &[Part::Head, Part::Bytes(&[0, 1, 0, 17])], Err(TX_INPUT_COUNT)),
    (false, &[Part::Head, Part::Bytes(&[1]), Part::Low, Part::Bytes(&[1, 0, 2]), Part::High, Part::Bytes(&[0, 1, 5]), Part::Low, Part::Bytes(&[9])], Err(TX_INPUT_ORDER)),
    (false, &[Part::Head, Part::Bytes(&[1]), Part::Low, Part::Bytes(&[1, 0, 1]), Part::High, Part::Bytes(&[0, 0])], Err(TX_PREIMAGE)),
    (true, &[Part::Head, Part::Bytes(&[0, 1, 0, 0, 0])], Err(TX_OUTPUT_COUNT)),
    (true, &[Part::Head, Part::Bytes(&[0, 2, 0]), Part::Grant, Part::Bytes(&[0, 1, 0, 0, 0, 0, 0, 0, 0, 0])], Err(TX_AMOUNT)),
    (true, &[Part::Head, Part::Bytes(&[0, 2, 0]), Part::Grant, Part::Bytes(&[0, 1]), Part::Limit], Err(TX_SUM)),
    // No inputs in genesis, at least one in others.
    (true, &[Part::Head, Part::Bytes(&[0, 1, 0]), Part::Grant], Ok(1)),
    (false, &[Part::Head, Part::Bytes(&[1]), Part::Low, Part::Bytes(&[1, 0]), Part::Spend], Ok(1)),
    (true, &[Part::Head, Part::Bytes(&[0, 1, 0]), Part::Spend], Err(GRANT_FAULT)),
    (false, &[Part::Head, Part::Bytes(&[1]), Part::Low, Part::Bytes(&[1, 0]), Part::Grant], Err(GRANT_FAULT)),
    (true, &[Part::Head, Part::Bytes(&[0, 2, 0]), Part::Spend, Part::Bytes(&[17])], Err(GRANT_FAULT)),
    // Each with an id of its own.
    (true, &[Part::Head, Part::Bytes(&[0, 2, 0]), Part::Grant, Part::OtherGrant], Ok(2)),
    (true, &[Part::Head, Part::Bytes(&[0, 3, 0]), Part::Grant, Part::OtherGrant, Part::Grant], Err(SAME_TX)),
    (true, &[Part::Head, Part::Bytes(&[0, 3, 0]), Part::Grant, Part::Grant, Part::Bytes(&[17])], Err(SAME_TX)),
    (false, &[Part::Head, Part::Bytes(&[1]), Part::Low, Part::Bytes(&[2, 0]), Part::Spend, Part::Spend], Err(SAME_TX)),
    // Each with outpoints of its own.
    (false, &[Part::Head, Part::Bytes(&[1]), Part::Low, Part::Bytes(&[3, 0]), Part::Spend, Part::OtherIndex, Part::OtherId], Ok(3)),
    (false, &[Part::Head, Part::Bytes(&[1]), Part::Low, Part::Bytes(&[2, 0]), Part::Spend, Part::OtherPreimage], Err(SAME_OUTPOINT)),
    (false, &[Part::Head, Part::Bytes(&[1]), Part::Low, Part::Bytes(&[3, 0]), Part::Two, Part::Spend, Part::TwoOthers], Err(SAME_OUTPOINT)),
    (false, &[Part::Head, Part::Bytes(&[1]), Part::Low, Part::Bytes(&[3, 0]), Part::Spend, Part::OtherPreimage, Part::Bytes(&[17])], Err(SAME_OUTPOINT)),
    // Nothing follows.
    (true, &[Part::Head, Part::Bytes(&[0, 0, 0, 0])], Err(TRAILING)),
    (true, &[Part::Head, Part::Bytes(&[0, 1, 0]), Part::Grant, Part::Grant], Err(TRAILING)),
    (false, &[Part::Head, Part::Bytes(&[1]), Part::Low, Part::Bytes(&[1, 0]), Part::Spend, Part::Bytes(&[0])], Err(TRAILING)),
];
