//! Which statement stands at a place of the generated script.
//!
//! Places are counted from 0. Each is found by its number alone: no list of statements is made.
ghost use Rattle.std.specs.Prelude.{◌≡◌, ◌≤◌, ◌<◌, ◌*◌, ◌-◌, ◌+◌, ◌^◌, length, slice_get, Some, IfOk};
ghost use Rattle.pq_fill.specs.Script.{definitions, followed_user, sub, items, item_text, fill_script, fill_kinds, fill_statement, fill_kind};

use crate::item::{Definition, Item, Kind};
use crate::text::put_item;
use pq_base::{NoMem, PText};
use std::alloc::Global;

/// To how many others each of so many users subscribes: five, or all where there are fewer.
fn followed(users: u32) -> u32
    requires { 1 ≤ users }
    ensures { result ≡ followed_user users }
{
    (users - 1).min(5)
}

/// The subscription of a user to the one who stands so many places behind him, in a circle.
fn sub(users: u32, owner: u32, behind: u32) -> Item
    requires some { 1 ≤ users }
    requires fits { owner + behind < 2 ^ 32 }
    ensures { result ≡ sub users owner behind }
{
    Item::Sub {
        owner,
        target: (owner + behind) % users,
        approved: behind != 3,
    }
}

fn definition_at(place: u32) -> Definition
    requires { place < 4 }
    ensures { slice_get definitions place ≡ Some (Item.Definition result) }
{
    match place {
        0 => Definition::Users,
        1 => Definition::Subs,
        2 => Definition::Thoughts,
        _ => Definition::Home,
    }
}

/// The statement at a place of the script for so many users, None exactly past its end.
fn item_at(users: u32, place: u32) -> Option<Item>
    requires { (1 ≤ users) × (users ≤ 20000) }
    ensures { result ≡ slice_get (items users) place }
{
    if place < 4 {
        return Some(Item::Definition(definition_at(place)));
    }
    let place = place - 4;
    if place < users {
        return Some(Item::User(place));
    }
    let place = place - users;
    let followed = followed(users);
    if place < users * followed {
        return Some(sub(users, place / followed, place % followed + 1));
    }
    let place = place - users * followed;
    if place < 5 * users {
        return Some(Item::Thought {
            owner: place % users,
            time: place,
        });
    }
    let place = place - 5 * users;
    if place < users {
        return Some(Item::Run(place));
    }
    None
}

/// How many statements the script for so many users has.
pub fn fill_count(n: u32) -> u32
    requires { (1 ≤ n) × (n ≤ 20000) }
    ensures { result ≡ length (fill_script n) }
{
    4 + n + n * followed(n) + 5 * n + n
}

/// What the statement at a place of the script for n users is counted as, None exactly past its end.
/// Places are counted from 0.
pub fn fill_kind(n: u32, i: u32) -> Option<Kind>
    requires { (1 ≤ n) × (n ≤ 20000) }
    ensures { result ≡ fill_kind n i }
{
    match item_at(n, i) {
        None => None,
        Some(item) => Some(item.kind()),
    }
}

fn text_of(alloc: Global, item: Item) -> Result<PText, NoMem>
    ensures { IfOk result (λ text. text ≡ item_text item) }
{
    let mut text = String::new(alloc);
    put_item(item, &mut text)?;
    match PText::from_bytes(alloc, text.as_str().as_bytes())? {
        Some(text) => Ok(text),
        None => unreachable!(),
    }
}

/// The statement at a place of the script for n users, None exactly past its end. Places are counted
/// from 0.
pub fn fill_statement(alloc: Global, n: u32, i: u32) -> Result<Option<PText>, NoMem>
    requires { (1 ≤ n) × (n ≤ 20000) }
    ensures { IfOk result (λ statement. statement ≡ fill_statement n i) }
{
    match item_at(n, i) {
        None => Ok(None),
        Some(item) => {
            let text = text_of(alloc, item)?;
            Ok(Some(text))
        }
    }
}
