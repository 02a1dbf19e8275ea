// The values of the rows: the words at the part's end, the only ones whose places depend on how many words a value has.
ghost use Rattle.std.specs.Prelude.{◌≡◌, ◌<◌};
ghost use Rattle.values.specs.Values.{value_of, value_at};
ghost use Rattle.component.specs.Stored.{ColumnSized, PutsValue, SwapsValues};

use values::Value;
use words::Shape;

// The value of row i.
pub fn value_of(part: &[u32], z: Shape, i: usize) -> Value
    requires { ColumnSized z part.now × (i < z.capacity) }
    ensures { value_of z.stride result ≡ value_at z part.now i }
{
    let v = words::value_place(z, i);
    values::get(part, v, z.width())
}

pub fn put_value(part: &mut [u32], z: Shape, i: usize, x: Value)
    requires { ColumnSized z part.old × (i < z.capacity) }
    ensures { PutsValue z i (value_of z.stride x) part.old part.new }
{
    let v = words::value_place(z, i);
    values::put(part, v, z.width(), x);
}

// Exchanges the values of two rows.
pub fn swap_values(part: &mut [u32], z: Shape, a: usize, b: usize)
    requires { ColumnSized z part.old × (a < z.capacity) × (b < z.capacity) }
    ensures { SwapsValues z a b part.old part.new }
{
    let first = value_of(part, z, a);
    let second = value_of(part, z, b);
    put_value(part, z, a, second);
    put_value(part, z, b, first);
}
