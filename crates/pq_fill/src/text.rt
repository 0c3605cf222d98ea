//! The parts of the script's and the summary's texts.
ghost use Rattle.std.specs.Prelude.{◌≡◌, ◌<◌, ◌++◌, ◌∷◌, [], OnOk, string_bytes};
ghost use Rattle.pq_print.specs.Report.{bound_text, used_text};
ghost use Rattle.pq_print.specs.Values.{truth_text};
ghost use Rattle.pq_fill.specs.Script.{digit, quoted_name, insert_into, user_text, sub_text, thought_text, run_text, item_text};

use crate::item::Item;
use itoa::{Buffer, Integer};
use pq_base::{Bound, Used};
use std::alloc::AllocError;

/// Puts the decimal digits of a number behind the text.
pub fn put_number<I: Integer>(number: I, out: &mut String) -> Result<(), AllocError>
    ensures { OnOk result (string_bytes out.new ≡ string_bytes out.old ++ I.text number) }
{
    let mut buffer = Buffer::new();
    out.push_str(buffer.format(number))
}

fn put_digit(number: u32, out: &mut String) -> Result<(), AllocError>
    requires { number < 10 }
    ensures { OnOk result (string_bytes out.new ≡ string_bytes out.old ++ digit number ∷ []) }
{
    out.push((b'0' + number as u8) as char)
}

#[tactic(auto, unfolding(crate::specs::Script::quoted_name))]
/// Puts the name of a user between quotes: `u` and the number in five digits.
fn put_name(user: u32, out: &mut String) -> Result<(), AllocError>
    ensures { OnOk result (string_bytes out.new ≡ string_bytes out.old ++ quoted_name user) }
{
    out.push_str("'u")?;
    put_digit(user / 10_000 % 10, out)?;
    put_digit(user / 1_000 % 10, out)?;
    put_digit(user / 100 % 10, out)?;
    put_digit(user / 10 % 10, out)?;
    put_digit(user % 10, out)?;
    out.push_str("'")
}

#[tactic(auto, unfolding(crate::specs::Script::insert_into))]
/// Puts an INSERT into a table up to the first value, the name of a user.
fn put_insert(table: &str, user: u32, out: &mut String) -> Result<(), AllocError>
    ensures { OnOk result (string_bytes out.new ≡ string_bytes out.old ++ insert_into table.now user) }
{
    out.push_str("INSERT INTO ")?;
    out.push_str(table)?;
    out.push_str(" VALUES (")?;
    put_name(user, out)
}

fn put_user(user: u32, out: &mut String) -> Result<(), AllocError>
    ensures { OnOk result (string_bytes out.new ≡ string_bytes out.old ++ user_text user) }
{
    put_insert("users", user, out)?;
    out.push_str(", 'c")?;
    put_digit(user % 10, out)?;
    out.push_str("');")
}

fn bool_text(truth: bool) -> &'static str
    ensures { result.now ≡ truth_text truth }
{
    if truth { "true" } else { "false" }
}

fn put_sub(owner: u32, target: u32, approved: bool, out: &mut String) -> Result<(), AllocError>
    ensures { OnOk result (string_bytes out.new ≡ string_bytes out.old ++ sub_text owner target approved) }
{
    put_insert("subs", owner, out)?;
    out.push_str(", ")?;
    put_name(target, out)?;
    out.push_str(", ")?;
    out.push_str(bool_text(approved))?;
    out.push_str(");")
}

fn put_thought(owner: u32, time: u32, out: &mut String) -> Result<(), AllocError>
    ensures { OnOk result (string_bytes out.new ≡ string_bytes out.old ++ thought_text owner time) }
{
    put_insert("thoughts", owner, out)?;
    out.push_str(", ")?;
    put_number(time, out)?;
    out.push_str(", 'b');")
}

fn put_run(user: u32, out: &mut String) -> Result<(), AllocError>
    ensures { OnOk result (string_bytes out.new ≡ string_bytes out.old ++ run_text user) }
{
    out.push_str("RUN home (")?;
    put_name(user, out)?;
    out.push_str(");")
}

/// Puts the text of a statement of the script.
pub fn put_item(item: Item, out: &mut String) -> Result<(), AllocError>
    ensures { OnOk result (string_bytes out.new ≡ string_bytes out.old ++ item_text item) }
{
    match item {
        Item::Definition(definition) => out.push_str(definition.text()),
        Item::User(user) => put_user(user, out),
        Item::Sub {
            owner,
            target,
            approved,
        } => put_sub(owner, target, approved, out),
        Item::Thought { owner, time } => put_thought(owner, time, out),
        Item::Run(user) => put_run(user, out),
    }
}

/// Puts what a line tells of a bound.
pub fn put_bound(bound: Bound, out: &mut String) -> Result<(), AllocError>
    ensures { OnOk result (string_bytes out.new ≡ string_bytes out.old ++ bound_text bound) }
{
    out.push_str(" bound ")?;
    put_number(bound.ops, out)?;
    out.push_str(" ")?;
    put_number(bound.entries, out)
}

/// Puts what a line tells of what was used.
pub fn put_used(used: Used, out: &mut String) -> Result<(), AllocError>
    ensures { OnOk result (string_bytes out.new ≡ string_bytes out.old ++ used_text used) }
{
    out.push_str(" used ")?;
    put_number(used.ops, out)?;
    out.push_str(" ")?;
    put_number(used.entries, out)
}
