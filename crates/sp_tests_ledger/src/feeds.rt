//! Feeds that are drawn: graphs of blocks that spend one another's outputs, some of them twice.

ghost use Rattle.std.specs.Prelude.{◌<◌};

use crate::blocks::Blocks;
use crate::payments::{ALICE, BOB, CAROL, DAVE, EVE, Paid, grant, spend};
use sp_fixtures::drawn::{Draws, Shape, parents_of};
use sp_ids::{Outpoint, TxId};
use sp_tx::{Tx, Txs, id};
use std::alloc::Global;
use std::test::Fail;

/// An output that may be spent: its name, its amount, and whose lock it has.
#[derive(Clone, Copy)]
struct Coin {
    from: Outpoint,
    amount: u64,
    owner: u8,
}

/// What spends an output: its name, the preimage, and what it pays to two.
#[derive(Clone, Copy)]
struct Spend {
    from: Outpoint,
    word: u8,
    paid: [Paid; 2],
}

/// What was drawn: outputs, and what spends some of them.
#[derive(Drop)]
struct Purses {
    alloc: Global,
    coins: Vec<Coin>,
    spends: Vec<Spend>,
}

/// One of the last so many of a list; none where it is empty.
fn recent<T: Copy>(draws: &mut Draws, list: &[T], among: usize) -> Option<T> {
    let back = draws.below(among.min(list.len()).max(1));
    let place = list.len().checked_sub(1)?.checked_sub(back)?;
    list.get(place).copied()
}

/// One of the owners.
fn owner(draws: &mut Draws) -> u8 {
    [ALICE, BOB, CAROL, DAVE, EVE][draws.below(5)]
}

/// What spends an output. One in eight has another's preimage or pays more than there is.
fn spend_of(draws: &mut Draws, coin: &Coin) -> Spend {
    let more = coin.amount.saturating_add(1);
    let (word, amount) = match draws.below(16) {
        0 => (9, coin.amount),
        1 => (coin.owner, more),
        _ => (coin.owner, coin.amount),
    };
    let part = (amount / 3).max(1);
    let rest = amount.saturating_sub(part).max(1);
    Spend {
        from: coin.from,
        word,
        paid: [(rest, owner(draws)), (part, owner(draws))],
    }
}

fn tx_of(alloc: Global, one: &Spend) -> Result<Tx, Fail> {
    spend(alloc, one.from, one.word, &one.paid)
}

impl Purses {
    /// Those of what genesis grants.
    fn add_grant(&mut self, tx: &Tx, paid: Paid) -> Result<(), Fail> {
        let tx = id(self.alloc, tx)?;
        let (amount, owner) = paid;
        self.add_coin(tx, 0, amount, owner)
    }

    fn add_coin(&mut self, tx: TxId, index: u8, amount: u64, owner: u8) -> Result<(), Fail> {
        self.coins.push(Coin {
            from: Outpoint { tx, index },
            amount,
            owner,
        })?;
        Ok(())
    }

    /// A spend and what it pays.
    fn add_spend(&mut self, one: &Spend) -> Result<(), Fail> {
        let tx = id(self.alloc, &tx_of(self.alloc, one)?)?;
        let [first, second] = one.paid;
        self.add_coin(tx, 0, first.0, first.1)?;
        self.add_coin(tx, 1, second.0, second.1)?;
        self.spends.push(*one)?;
        Ok(())
    }

    /// One of the last spends again, or else a new one of one of the last outputs.
    fn one(&self, draws: &mut Draws) -> Option<Spend> {
        if draws.below(4) == 0 && !self.spends.is_empty() {
            return recent(draws, &self.spends, 6);
        }
        let coin = recent(draws, &self.coins, 24)?;
        Some(spend_of(draws, &coin))
    }

    /// At most so many spends, no two of one output.
    fn some(&self, draws: &mut Draws, most: usize) -> Result<Vec<Spend>, Fail> {
        let mut chosen = Vec::new(self.alloc);
        for _ in 0..draws.below(most.saturating_add(1).max(1)) {
            if let Some(one) = self.one(draws)
                && is_new(&chosen, &one)
            {
                chosen.push(one)?;
            }
        }
        Ok(chosen)
    }

    fn add_all(&mut self, chosen: &[Spend]) -> Result<(), Fail> {
        for one in chosen {
            self.add_spend(one)?;
        }
        Ok(())
    }
}

fn is_new(chosen: &[Spend], one: &Spend) -> bool {
    chosen.iter().all(|other| other.from != one.from)
}

fn txs_of(alloc: Global, chosen: &[Spend]) -> Result<Txs, Fail> {
    let mut txs = Vec::new(alloc);
    for one in chosen {
        txs.push(tx_of(alloc, one)?)?;
    }
    Ok(Txs::of(txs))
}

/// Genesis, which grants ten amounts.
fn begin(blocks: &mut Blocks, purses: &mut Purses) -> Result<(), Fail> {
    let mut txs = Vec::new(purses.alloc);
    for number in 0..10u8 {
        let paid = ((1u64 << 60) + number as u64, ALICE + number % 5);
        let tx = grant(purses.alloc, &[paid])?;
        purses.add_grant(&tx, paid)?;
        txs.push(tx)?;
    }
    blocks.put(&[], Txs::of(txs))
}

/// One block more, which carries at most four spends.
fn go_on(
    blocks: &mut Blocks,
    purses: &mut Purses,
    draws: &mut Draws,
    shape: &Shape,
) -> Result<(), Fail> {
    let parents = parents_of(purses.alloc, draws, shape, blocks.count())?;
    let chosen = purses.some(draws, 4)?;
    let txs = txs_of(purses.alloc, &chosen)?;
    purses.add_all(&chosen)?;
    blocks.put(&parents, txs)
}

fn fill(blocks: &mut Blocks, purses: &mut Purses, shape: &Shape) -> Result<(), Fail> {
    let mut draws = Draws { last: shape.0 };
    begin(blocks, purses)?;
    for _ in 0..shape.1 {
        go_on(blocks, purses, &mut draws, shape)?;
    }
    Ok(())
}

/// Genesis, and the blocks of a shape with what they carry.
pub fn feed(alloc: Global, shape: &Shape) -> Result<Blocks, Fail> {
    let mut blocks = Blocks::new(alloc)?;
    let mut purses = Purses {
        alloc,
        coins: Vec::new(alloc),
        spends: Vec::new(alloc),
    };
    fill(&mut blocks, &mut purses, shape)?;
    Ok(blocks)
}
