//! From values to key codes.
ghost use Rattle.std.specs.Prelude.{◌≡◌, ◌++◌, ◌∷◌, [], length, map, take, OnOk, OnErr, IfOk};
ghost use Rattle.pq_base.specs.declared.value.Dir.TheVariants.{Asc};
ghost use Rattle.pq_base.specs.declared.value.Value.TheVariants as values;
ghost use Rattle.pq_key_code.specs.KeyCode.{above_least, payload, turned_byte, escaped_text, null_marker, marker, component, code_of};

use pq_base::{Bytes, Dir, NoMem, Row, Value};
use std::alloc::Global;

/// A payload byte in its direction: complemented where it descends. Turned twice it is as before.
pub(crate) fn turn(dir: Dir, byte: u8) -> u8
    ensures { result ≡ turned_byte dir byte }
{
    match dir {
        Dir::Asc => byte,
        Dir::Desc => 255 - byte,
    }
}

fn above_least_of(number: i64) -> u64
    ensures { result ≡ above_least number }
{
    number.cast_unsigned().wrapping_add(1 << 63)
}

fn put_each_turned(alloc: Global, out: &mut Bytes, dir: Dir, bytes: &[u8]) -> Result<(), NoMem>
    ensures ok { OnOk result (out.new ≡ out.old ++ map (turned_byte dir) bytes.now) }
    ensures kept { OnErr result (take (length out.old) out.new ≡ out.old) }
{
    for byte in bytes {
        out.push(alloc, turn(dir, *byte))?;
    }
    Ok(())
}

// Ascending bytes stay as they are.
#[tactic(auto, using(crate::proofs::Escapes::ascending))]
fn put_turned(alloc: Global, out: &mut Bytes, dir: Dir, bytes: &[u8]) -> Result<(), NoMem>
    ensures ok { OnOk result (out.new ≡ out.old ++ map (turned_byte dir) bytes.now) }
    ensures kept { OnErr result (take (length out.old) out.new ≡ out.old) }
{
    match dir {
        Dir::Asc => out.extend(alloc, bytes),
        Dir::Desc => put_each_turned(alloc, out, dir, bytes),
    }
}

#[tactic(auto, using(crate::proofs::Escapes::escaped_one, crate::proofs::Fronts::front_stays))]
fn put_text_byte(alloc: Global, out: &mut Bytes, dir: Dir, byte: u8) -> Result<(), NoMem>
    ensures ok { OnOk result (out.new ≡ out.old ++ map (turned_byte dir) (escaped_text (byte ∷ []))) }
    ensures kept { OnErr result (take (length out.old) out.new ≡ out.old) }
{
    out.push(alloc, turn(dir, byte))?;
    if byte == 0 {
        out.push(alloc, turn(dir, 255))?;
    }
    Ok(())
}

fn put_escaped(alloc: Global, out: &mut Bytes, dir: Dir, bytes: &[u8]) -> Result<(), NoMem>
    ensures ok { OnOk result (out.new ≡ out.old ++ map (turned_byte dir) (escaped_text bytes.now)) }
    ensures kept { OnErr result (take (length out.old) out.new ≡ out.old) }
{
    for byte in bytes {
        put_text_byte(alloc, out, dir, *byte)?;
    }
    Ok(())
}

// A text without zeros has nothing to escape.
#[tactic(auto, using(crate::proofs::Escapes::escaped_plain))]
fn put_text_bytes(alloc: Global, out: &mut Bytes, dir: Dir, bytes: &[u8]) -> Result<(), NoMem>
    ensures ok { OnOk result (out.new ≡ out.old ++ map (turned_byte dir) (escaped_text bytes.now)) }
    ensures kept { OnErr result (take (length out.old) out.new ≡ out.old) }
{
    if bytes.contains(&0) {
        put_escaped(alloc, out, dir, bytes)
    } else {
        put_turned(alloc, out, dir, bytes)
    }
}

#[tactic(auto, using(crate::proofs::Fronts::front_kept))]
fn put_text(alloc: Global, out: &mut Bytes, dir: Dir, bytes: &[u8]) -> Result<(), NoMem>
    ensures ok { OnOk result (out.new ≡ out.old ++ map (turned_byte dir) (payload (values.Text bytes.now))) }
    ensures kept { OnErr result (take (length out.old) out.new ≡ out.old) }
{
    put_text_bytes(alloc, out, dir, bytes)?;
    out.push(alloc, turn(dir, 0))?;
    out.push(alloc, turn(dir, 1))
}

/// The marker of NULL in this direction.
pub(crate) fn null_marker(dir: Dir) -> u8
    ensures { result ≡ null_marker dir }
{
    match dir {
        Dir::Asc => 0x08,
        Dir::Desc => 0x18,
    }
}

fn marker(dir: Dir, value: &Value) -> u8
    ensures { result ≡ marker dir value.now }
{
    match value {
        Value::Null => null_marker(dir),
        Value::Int(_) | Value::Bool(_) | Value::Text(_) => 0x10,
    }
}

fn put_payload(alloc: Global, out: &mut Bytes, dir: Dir, value: &Value) -> Result<(), NoMem>
    ensures ok { OnOk result (out.new ≡ out.old ++ map (turned_byte dir) (payload value.now)) }
    ensures kept { OnErr result (take (length out.old) out.new ≡ out.old) }
{
    match value {
        Value::Null => Ok(()),
        Value::Int(number) => {
            put_turned(alloc, out, dir, &above_least_of(*number).to_be_bytes())
        }
        Value::Bool(truth) => put_turned(alloc, out, dir, &[u8::from(*truth)]),
        Value::Text(text) => put_text(alloc, out, dir, text.bytes()),
    }
}

/// Puts the component of an ascending number: its nine bytes at once.
#[tactic(auto, using(crate::proofs::Escapes::ascending))]
fn put_number(alloc: Global, out: &mut Bytes, number: i64) -> Result<(), NoMem>
    ensures ok { OnOk result (out.new ≡ out.old ++ component Asc (values.Int number)) }
    ensures err { OnErr result (out.new ≡ out.old) }
{
    let [a, b, c, d, e, f, g, h] = above_least_of(number).to_be_bytes();
    out.extend(alloc, &[0x10, a, b, c, d, e, f, g, h])
}

/// Puts the marker, and then the payload in its direction.
#[tactic(auto, using(crate::proofs::Fronts::front_kept))]
fn put_marked(alloc: Global, out: &mut Bytes, dir: Dir, value: &Value) -> Result<(), NoMem>
    ensures ok { OnOk result (out.new ≡ out.old ++ component dir value.now) }
    ensures err { OnErr result (out.new ≡ out.old) }
{
    let len = out.items().len();
    out.push(alloc, marker(dir, value))?;
    let put = put_payload(alloc, out, dir, value);
    if put.is_err() {
        out.truncate(len);
    }
    put
}

/// Puts a value's component behind what is there: the marker, and the payload in its direction.
/// After `NoMem` the bytes are as before.
pub fn put_component(alloc: Global, out: &mut Bytes, dir: Dir, value: &Value) -> Result<(), NoMem>
    ensures ok { OnOk result (out.new ≡ out.old ++ component dir value.now) }
    ensures err { OnErr result (out.new ≡ out.old) }
{
    match (dir, value) {
        (Dir::Asc, Value::Int(number)) => put_number(alloc, out, *number),
        _ => put_marked(alloc, out, dir, value),
    }
}

// Most keys have no more bytes than this.
const KEY_ROOM: usize = 40;

/// The bytes that a key begins with, with room for those of most keys.
pub(crate) fn begun(alloc: Global, front: &[u8]) -> Result<Bytes, NoMem>
    ensures { IfOk result (λ bytes. bytes ≡ front.now) }
{
    let mut bytes = Bytes::with_room(alloc, KEY_ROOM)?;
    bytes.extend(alloc, front)?;
    Ok(bytes)
}

/// Puts a row's key code behind what is there.
pub(crate) fn put_code(
    alloc: Global,
    out: &mut Bytes,
    row: &[Value],
    dirs: &[Dir],
) -> Result<(), NoMem>
    requires { length row.now ≡ length dirs.now }
    ensures { OnOk result (out.new ≡ out.old ++ code_of dirs.now row.now) }
{
    for i in 0..row.len() {
        put_component(alloc, out, dirs[i], &row[i])?;
    }
    Ok(())
}

/// The key code of a row, each value in its direction.
pub fn encode_key(alloc: Global, row: &Row, dirs: &[Dir]) -> Result<Bytes, NoMem>
    requires { length row.now ≡ length dirs.now }
    ensures { IfOk result (λ code. code ≡ code_of dirs.now row.now) }
{
    let mut code = begun(alloc, &[])?;
    put_code(alloc, &mut code, row.items(), dirs)?;
    Ok(code)
}
