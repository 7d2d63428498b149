//! Which tables and transactions the entries name.
ghost use Rattle.std.specs.Prelude.{◌≡◌, ◌&&◌, map, nat_le, not};
ghost use Rattle.std.specs.List.{list_any};
ghost use Rattle.rl_value.specs.Order.{same_bytes};
ghost use Rattle.redo_spec.specs.History.{same_xid};
ghost use Rattle.redo_spec.specs.Skips.{has_rule as has_equal, same_rule, names_xid as rule_names_xid, is_maintained};
ghost use Rattle.skip_guard.specs.Rules.{skip_of, rule_of, names_text};

use crate::entry::{SkipEntry, SkipRule};
use crate::full_name::FullName;
use redo_vec::TableRow;
use rl_value::Xid;

fn same(bytes: &[u8], other: &[u8]) -> bool
    ensures { result ≡ same_bytes bytes.now other.now }
{
    bytes == other
}

fn same_id(id: Xid, other: Xid) -> bool
    ensures { result ≡ same_xid id other }
{
    id.usn == other.usn && id.slot == other.slot && id.sqn == other.sqn
}

fn same_as(rule: &SkipRule, other: &SkipRule) -> bool
    ensures { result ≡ same_rule (rule_of rule.now) (rule_of other.now) }
{
    match rule {
        SkipRule::Tables(pattern) => match other {
            SkipRule::Tables(other) => same(pattern.bytes(), other.bytes()),
            SkipRule::Transaction(_) => false,
        },
        SkipRule::Transaction(id) => match other {
            SkipRule::Tables(_) => false,
            SkipRule::Transaction(other) => same_id(*id, *other),
        },
    }
}

fn has_same(entry: &SkipEntry, rule: &SkipRule) -> bool
    ensures { result ≡ same_rule (rule_of entry.now.rule) (rule_of rule.now) }
{
    same_as(&entry.rule, rule)
}

/// An equal rule is there.
pub fn has_rule(entries: &[SkipEntry], rule: &SkipRule) -> bool
    ensures { result ≡ has_equal (map skip_of entries.now) (rule_of rule.now) }
{
    entries.iter().any(|entry| has_same(entry, rule))
}

fn is_of(rule: &SkipRule, id: Xid) -> bool
    ensures { result ≡ rule_names_xid (rule_of rule.now) id }
{
    match rule {
        SkipRule::Tables(_) => false,
        SkipRule::Transaction(named) => same_id(*named, id),
    }
}

fn counts_for_xid(entry: &SkipEntry, at: u64, id: Xid) -> bool
    ensures { result ≡ (nat_le entry.now.from at && rule_names_xid (rule_of entry.now.rule) id) }
{
    entry.from <= at && is_of(&entry.rule, id)
}

/// An entry that counts after `at` commits names the transaction.
pub fn names_xid(entries: &[SkipEntry], at: u64, id: Xid) -> bool
    ensures { result ≡ list_any (λ s. nat_le s.from at && rule_names_xid s.rule id) (map skip_of entries.now) }
{
    entries.iter().any(|entry| counts_for_xid(entry, at, id))
}

fn matches_name(rule: &SkipRule, name: &[u8]) -> bool
    ensures { result ≡ names_text (rule_of rule.now) name.now }
{
    match rule {
        SkipRule::Tables(pattern) => pattern.matches(name),
        SkipRule::Transaction(_) => false,
    }
}

fn counts_for_name(entry: &SkipEntry, at: u64, name: &[u8]) -> bool
    ensures { result ≡ (nat_le entry.now.from at && names_text (rule_of entry.now.rule) name.now) }
{
    entry.from <= at && matches_name(&entry.rule, name)
}

fn names_full(entries: &[SkipEntry], at: u64, name: &[u8]) -> bool
    ensures { result ≡ list_any (λ s. nat_le s.from at && names_text s.rule name.now) (map skip_of entries.now) }
{
    entries.iter().any(|entry| counts_for_name(entry, at, name))
}

/// An entry that counts after `at` commits names the table.
pub fn names_table(entries: &[SkipEntry], at: u64, table: &TableRow) -> bool
    ensures { result ≡ not (is_maintained (map skip_of entries.now) at table.now) }
{
    if entries.is_empty() {
        return false;
    }
    let full = FullName::of(table);
    names_full(entries, at, full.bytes())
}
