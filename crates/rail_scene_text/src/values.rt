//! Values of TOML: names, times, and arrays of what is written for each item.
ghost use Rattle.std.specs.Prelude.{◌≡◌, OnOk, IfOk, IsTrue, nat_le};
ghost use Rattle.std.specs.List.{list_all};
ghost use Rattle.toml.specs.Data.{string};
ghost use Rattle.toml.specs.View.{view, table_view};
ghost use Rattle.rail_base.specs.Clock.{time_text};
ghost use Rattle.rail_scene.specs.Keys.{text_of};
ghost use Rattle.rail_scene_text.specs.Tables.{put, number, array_of};

use rail_base::{Name, Time, write_time};
use rail_scene::keys::KeyName;
use std::alloc::{AllocError, Global};
use toml::{Table, Value};

/// What is written for an item.
pub(crate) trait Written {
    ghost use Rattle.std.specs.Prelude.{Bool};
    ghost use Rattle.toml.specs.Data.{Data};

    ghost data_of: { Self → Data };

    /// What the types of the fields say.
    ghost is_typed: { Self → Bool };

    /// The value of the item.
    fn value(&self, alloc: Global) -> Result<Value, AllocError>
        ensures value { IfOk result (λ value. view value ≡ data_of self.now) }
        ensures typed { OnOk result (IsTrue (is_typed self.now)) };
}

/// The array of what is written for each item.
pub(crate) fn array<W: Written>(alloc: Global, items: &[W]) -> Result<Value, AllocError>
    ensures value { IfOk result (λ value. view value ≡ array_of W.data_of items.now) }
    ensures typed { OnOk result (IsTrue (list_all W.is_typed items.now)) }
{
    let mut values = Vec::new(alloc);
    for item in items {
        values.push(item.value(alloc)?)?;
    }
    Ok(Value::Array(values))
}

/// A name is a string.
impl Written for Name {
    ghost use Rattle.rail_base.specs.NameForms.{is_name};

    ghost data_of = { string };

    ghost is_typed = { is_name };

    fn value(&self, alloc: Global) -> Result<Value, AllocError> {
        Ok(Value::String(String::from_utf8_lossy(alloc, self.as_bytes())?))
    }
}

/// The number of a byte.
pub(crate) fn byte_value(byte: u8) -> Value
    ensures value { view result ≡ number byte }
    ensures typed { IsTrue (nat_le byte 255) }
{
    Value::from(byte)
}

/// The string of a time.
pub(crate) fn time_value(alloc: Global, time: Time) -> Result<Value, AllocError>
    ensures { IfOk result (λ value. view value ≡ string (time_text time)) }
{
    // Read here, so that its range is known.
    let _tenths = time.0;
    let mut text = [0; 32];
    let len = write_time(time, &mut text);
    Ok(Value::String(String::from_utf8_lossy(alloc, &text[..len])?))
}

/// Puts a value at a key of a table.
pub(crate) fn put(
    alloc: Global,
    members: &mut Table,
    key: KeyName,
    value: Value,
) -> Result<(), AllocError>
    ensures { OnOk result (table_view members.new ≡ put (text_of key) (view value) (table_view members.old)) }
{
    let text = String::from_str(alloc, key.text())?;
    match members.insert(text, value) {
        Ok(_) => Ok(()),
        Err(_) => Err(AllocError),
    }
}
