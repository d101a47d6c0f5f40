//! The names that stand more than once in an object.

ghost use Rattle.std.specs.Prelude.{◌≡◌, IfOk, OnOk, map};
ghost use Rattle.filing_model.specs.Common.Text.{has_repeats};
ghost use Rattle.oim_fact.specs.Texts.{begins_with, has_equal_neighbours};
ghost use Rattle.json.specs.Strict.{keys};
ghost use Rattle.json.specs.Value.{value_view, items_view, members_view};
ghost use Rattle.report_inspection.specs.MemberNames.{Adds, is_among, is_repeated, is_repeated_in, is_repeated_in_items, is_repeated_in_values};

use filing_model::is_same_text;
use std::alloc::{AllocError, Global};
use std::collections::BTreeSet;

/// Members that are compared with one another at most; for more a set of their names is made.
const FEW: usize = 16;

/// Whether one of these members has this name.
fn is_among(members: &[(&str, json::Value<'_>)], name: &str) -> bool
    ensures { result ≡ is_among (keys (members_view members.now)) name.now }
{
    for member in members {
        if is_same_text(name, member.0) {
            return true;
        }
    }
    false
}

/// Adds each name that stands more than once among these members, without a set of names.
fn add_repeated_of_few<'a>(
    repeated: &mut BTreeSet<&'a str>,
    members: &[(&'a str, json::Value<'a>)],
) -> Result<(), AllocError>
    ensures { OnOk result (Adds (is_repeated (keys (members_view members.now))) repeated.old repeated.new) }
{
    let mut left = members;
    while let [first, rest @ ..] = left {
        if is_among(rest, first.0) {
            drop(repeated.insert(first.0)?);
        }
        left = rest;
    }
    Ok(())
}

/// The names of these members, in their order.
fn names_of<'a>(
    alloc: Global,
    members: &Vec<(&'a str, json::Value<'a>)>,
) -> Result<Vec<&'a str>, AllocError>
    ensures { IfOk result (λ v. map (λ n. n.now) v.items ≡ keys (members_view members.now.items)) }
{
    let mut names = Vec::with_capacity(alloc, members.len())?;
    for member in members {
        names.push(member.0)?;
    }
    Ok(names)
}

/// Whether the first of these names is this one.
fn begin_with(names: &[&str], name: &str) -> bool
    ensures { result ≡ begins_with name.now (map (λ n. n.now) names.now) }
{
    match names {
        [first, ..] => is_same_text(name, first),
        [] => false,
    }
}

/// Whether one of these names is the one before it.
fn have_equal_neighbours(names: &[&str]) -> bool
    ensures { result ≡ has_equal_neighbours (map (λ n. n.now) names.now) }
{
    let mut left = names;
    while let [first, rest @ ..] = left {
        if begin_with(rest, first) {
            return true;
        }
        left = rest;
    }
    false
}

/// Whether a name stands more than once among these members.
fn have_repeats<'a>(
    alloc: Global,
    members: &Vec<(&'a str, json::Value<'a>)>,
) -> Result<bool, AllocError>
    ensures { IfOk result (λ b. b ≡ has_repeats (keys (members_view members.now.items))) }
{
    let mut names = names_of(alloc, members)?;
    names.sort_unstable_by(|one, other| one.cmp(other));
    Ok(have_equal_neighbours(&names))
}

/// Adds each name that stands more than once among these members, by a set of names.
fn add_repeated_of_many<'a>(
    alloc: Global,
    repeated: &mut BTreeSet<&'a str>,
    members: &Vec<(&'a str, json::Value<'a>)>,
) -> Result<(), AllocError>
    ensures { OnOk result (Adds (is_repeated (keys (members_view members.now.items))) repeated.old repeated.new) }
{
    let mut seen = BTreeSet::new(alloc);
    for member in members {
        if !seen.insert(member.0)? {
            drop(repeated.insert(member.0)?);
        }
    }
    Ok(())
}

/// Adds each name that stands more than once among these members.
pub(crate) fn add_repeated<'a>(
    alloc: Global,
    repeated: &mut BTreeSet<&'a str>,
    members: &Vec<(&'a str, json::Value<'a>)>,
) -> Result<(), AllocError>
    ensures { OnOk result (Adds (is_repeated (keys (members_view members.now.items))) repeated.old repeated.new) }
{
    if members.len() <= FEW {
        return add_repeated_of_few(repeated, members);
    }
    if have_repeats(alloc, members)? {
        return add_repeated_of_many(alloc, repeated, members);
    }
    Ok(())
}

/// Adds each name that stands more than once in an object of this value, however deep.
#[cycle(deep)]
pub(crate) fn add_repeated_in<'a>(
    alloc: Global,
    repeated: &mut BTreeSet<&'a str>,
    value: &json::Value<'a>,
) -> Result<(), AllocError>
    ensures { OnOk result (Adds (is_repeated_in (value_view value.now)) repeated.old repeated.new) }
{
    match value {
        json::Value::Array(items) => add_repeated_in_items(alloc, repeated, items),
        json::Value::Object(members) => {
            add_repeated(alloc, repeated, members)?;
            add_repeated_in_values(alloc, repeated, members)
        }
        _ => Ok(()),
    }
}

/// Adds each name that stands more than once in an object of these items, however deep.
#[cycle(deep)]
fn add_repeated_in_items<'a>(
    alloc: Global,
    repeated: &mut BTreeSet<&'a str>,
    items: &Vec<json::Value<'a>>,
) -> Result<(), AllocError>
    ensures { OnOk result (Adds (is_repeated_in_items (items_view items.now.items)) repeated.old repeated.new) }
{
    for item in items {
        add_repeated_in(alloc, repeated, item)?;
    }
    Ok(())
}

/// Adds each name that stands more than once in an object of the values of these members, however deep.
#[cycle(deep)]
fn add_repeated_in_values<'a>(
    alloc: Global,
    repeated: &mut BTreeSet<&'a str>,
    members: &Vec<(&'a str, json::Value<'a>)>,
) -> Result<(), AllocError>
    ensures { OnOk result (Adds (is_repeated_in_values (members_view members.now.items)) repeated.old repeated.new) }
{
    for member in members {
        add_repeated_in(alloc, repeated, &member.1)?;
    }
    Ok(())
}
