//! The small lists of a bank's state: blocks that level one asked for, each with the register of its primary
//! miss, blocks that level two supplied, and ready replies.

ghost use Rattle.std.specs.Prelude.{◌≡◌, ◌==◌, true, false, ◌∷◌, [], ◌++◌, OnOk, OnErr, MatchOption, option_copied};
ghost use Rattle.std.specs.List.{find, list_any, position};
ghost use Rattle.lf_rules.specs.Table.{asked_register, first_ready, is_asked, is_ready_for, without};
ghost use Rattle.lf_rules.specs.Table.{without_asked, without_ready};

use crate::request::Ready;
use lf_rules::NoMemory;

/// The item comes last. `NoMemory` where the growth was refused, and nothing changes.
pub fn push<T: Drop>(items: &mut Vec<T>, item: T) -> Result<(), NoMemory>
    ensures ok { OnOk result (items.new.items ≡ items.old.items ++ item ∷ []) }
    ensures err { OnErr result (items.new.items ≡ items.old.items) }
{
    items.push(item)?;
    Ok(())
}

fn asked_entry(asked: &[(u32, u16)], block: u32) -> Option<&(u32, u16)>
    ensures { option_copied result ≡ find (λ a. a.0 == block) asked.now }
{
    asked.iter().find(|a| a.0 == block)
}

/// The level-one register of the block's primary miss, and 0 where the block is not asked for.
pub fn asked_register(asked: &[(u32, u16)], block: u32) -> u16
    ensures { result ≡ asked_register asked.now block }
{
    match asked_entry(asked, block) {
        Some(entry) => entry.1,
        None => 0,
    }
}

/// The level-one register of the block's primary miss, where the block is asked for.
pub fn asker_of(asked: &[(u32, u16)], block: u32) -> Option<u16>
    ensures { MatchOption result (is_asked asked.now block ≡ false)
        (λ register. (is_asked asked.now block ≡ true) × (register ≡ asked_register asked.now block)) }
{
    match asked_entry(asked, block) {
        Some(entry) => Some(entry.1),
        None => None,
    }
}

/// The block is no longer asked for.
pub fn drop_asked(asked: &mut Vec<(u32, u16)>, block: u32)
    ensures { asked.new.items ≡ without_asked asked.old.items block }
{
    asked.retain(|a| a.0 != block);
}

/// The block is no longer among these. Each is written to its place, the block too, over which the next one comes: a
/// branch for the block is one that the processor often predicts wrongly.
pub fn drop_block(blocks: &mut Vec<u32>, block: u32)
    ensures { blocks.new.items ≡ without blocks.old.items block }
{
    let mut kept = 0;
    for at in 0..blocks.len() {
        let other = blocks[at];
        blocks[kept] = other;
        if other != block {
            kept += 1;
        }
    }
    blocks.truncate(kept);
}

fn ready_entry(ready: &[Ready], port: u8, tag: u8) -> Option<&Ready>
    ensures { option_copied result ≡ find (is_ready_for port tag) ready.now }
{
    ready.iter().find(|r| r.port() == port && r.tag() == tag)
}

/// The first reply that is ready for the port and tag.
pub fn ready_for(ready: &[Ready], port: u8, tag: u8) -> Option<&Ready>
    ensures { MatchOption result (list_any (is_ready_for port tag) ready.now ≡ false)
        (λ r. (list_any (is_ready_for port tag) ready.now ≡ true) × (r.now.value ≡ first_ready ready.now port tag)) }
{
    ready_entry(ready, port, tag)
}

/// The first reply that is ready for the port and tag leaves.
pub fn drop_ready(ready: &mut Vec<Ready>, port: u8, tag: u8)
    ensures { ready.new.items ≡ without_ready ready.old.items port tag }
{
    if let Some(at) = ready_at(ready, port, tag) {
        ready.remove(at);
    }
}

/// Where the first reply that is ready for the port and tag stands.
pub fn ready_at(ready: &[Ready], port: u8, tag: u8) -> Option<usize>
    ensures { result ≡ position (is_ready_for port tag) ready.now }
{
    ready
        .iter()
        .position(|r| r.port() == port && r.tag() == tag)
}
