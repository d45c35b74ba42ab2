//! Carriers of a block whose transactions' ids were found where it was read, beside those whose ids are found anew.

use sp_block::read_block_with_ids;
use sp_carry::Carriers;
use sp_dag::Dag;
use sp_fixtures::{flat, graph};
use sp_model::Profile;
use std::test::Fail;

/// The parts of a genesis block that grants 1 and 2 under one lock.
const GRANTS: &[&[u8]] = &[
    &[1],
    &[0; 17],
    &[2, 0],
    &[0, 1, 1, 0, 0, 0, 0, 0, 0, 0],
    &[7; 32],
    &[0, 1, 2, 0, 0, 0, 0, 0, 0, 0],
    &[7; 32],
];

#[test]
fn carriers_by_ids_that_are_told(rt: HostRuntime) -> Result<(), Fail> {
    let alloc = rt.alloc();
    let mut ids = Vec::new(alloc);
    let block = read_block_with_ids(alloc, &flat(alloc, GRANTS)?, true, &mut ids)?;
    assert!(rt; block.txs.as_slice().len() <= 256);
    let dag = Dag::new(alloc, graph::id(0), 0, Profile::One)?;
    let mut told = Carriers::new(alloc);
    told.add_with_ids(&dag, 0, &block.txs, &ids)?;
    let mut found = Carriers::new(alloc);
    found.add(&dag, 0, &block.txs)?;
    assert_eq!(rt; (told.tx_count(), told.carrier_count()), (2, 2));
    assert_eq!(rt; (found.tx_count(), found.carrier_count()), (2, 2));
    for (place, id) in ids.iter().enumerate() {
        assert_eq!(rt; told.tx_of(id), Some(place as u32));
        assert_eq!(rt; found.tx_of(id), Some(place as u32));
    }
    Ok(())
}
