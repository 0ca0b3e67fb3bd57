//! Why a table is no quandle.
ghost use Rattle.std.specs.Prelude.{◌≡◌, ◌<◌, ◌*◌, length, None};
ghost use Rattle.quandle_core.specs.Quandle.{Table, over};
ghost use Rattle.quandle_core.specs.Fault.{or_else, order_fault, length_fault, range_fault, idempotent_fault, collision_fault, distributive_fault};
ghost use Rattle.quandle_core.specs.Fault.{first_fault_within, collides, distributes};

/// The first law that a table breaks, with its lexicographically first case.
#[derive(Clone, Copy, PartialEq, Eq)]
pub enum QuandleFault {
    /// The order lies outside 1 to the greatest.
    Order,
    /// The table's length is not the order squared.
    Length,
    /// `x ▷ y` is not below the order.
    Range { x: u8, y: u8 },
    /// `x ▷ x` is not `x`.
    Idempotent { x: u8 },
    /// `x ▷ y = z ▷ y` with `x` below `z`.
    Collision { x: u8, z: u8, y: u8 },
    /// `(x ▷ y) ▷ z` is not `(x ▷ z) ▷ (y ▷ z)`.
    Distributive { x: u8, y: u8, z: u8 },
    /// `t` has no inverse mod `n`.
    NoInverse,
}

/// `x ▷ y`, read off a table.
pub(crate) fn entry(order: u8, table: &[u8], x: u8, y: u8) -> u8
    requires square { length table.now ≡ order * order }
    requires place { (x < order) × (y < order) }
    ensures { result ≡ over (record { order = order; entries = table.now }) x y }
{
    table[x as usize * order as usize + y as usize]
}

/// The first law that a table breaks, whose order is to be at most `most`, with its lexicographically first case.
pub(crate) fn table_fault(most: usize, order: u8, table: &[u8]) -> Option<QuandleFault>
    ensures { result ≡ first_fault_within most (record { order = order; entries = table.now }) }
{
    if let Some(fault) = shape_fault(most, order, table) {
        return Some(fault);
    }
    if let Some(fault) = range_fault(order, table) {
        return Some(fault);
    }
    if let Some(fault) = idempotent_fault(order, table) {
        return Some(fault);
    }
    if let Some(fault) = collision_fault(order, table) {
        return Some(fault);
    }
    distributive_fault(order, table)
}

/// Whether the order or the length is wrong.
fn shape_fault(most: usize, order: u8, table: &[u8]) -> Option<QuandleFault>
    ensures { let t : Table = record { order = order; entries = table.now } in result ≡ or_else (order_fault most t) (length_fault t) }
{
    if order < 1 || order as usize > most {
        return Some(QuandleFault::Order);
    }
    if table.len() != order as usize * order as usize {
        return Some(QuandleFault::Length);
    }
    None
}

/// The first entry outside the order.
fn range_fault(order: u8, table: &[u8]) -> Option<QuandleFault>
    requires square { length table.now ≡ order * order }
    ensures { result ≡ range_fault (record { order = order; entries = table.now }) }
{
    for x in 0..order {
        for y in 0..order {
            if entry(order, table, x, y) >= order {
                return Some(QuandleFault::Range { x, y });
            }
        }
    }
    None
}

/// The first `x` with another `x ▷ x`.
fn idempotent_fault(order: u8, table: &[u8]) -> Option<QuandleFault>
    requires square { length table.now ≡ order * order }
    ensures { result ≡ idempotent_fault (record { order = order; entries = table.now }) }
{
    for x in 0..order {
        if entry(order, table, x, x) != x {
            return Some(QuandleFault::Idempotent { x });
        }
    }
    None
}

/// The first two equal entries of a column.
fn collision_fault(order: u8, table: &[u8]) -> Option<QuandleFault>
    requires square { length table.now ≡ order * order }
    ensures { result ≡ collision_fault (record { order = order; entries = table.now }) }
{
    for x in 0..order {
        for z in 0..order {
            for y in 0..order {
                if collides(order, table, x, z, y) {
                    return Some(QuandleFault::Collision { x, z, y });
                }
            }
        }
    }
    None
}

/// The first case that breaks the third law.
fn distributive_fault(order: u8, table: &[u8]) -> Option<QuandleFault>
    requires square { length table.now ≡ order * order }
    requires within { range_fault (record { order = order; entries = table.now }) ≡ None }
    ensures { result ≡ distributive_fault (record { order = order; entries = table.now }) }
{
    for x in 0..order {
        for y in 0..order {
            for z in 0..order {
                if !distributes(order, table, x, y, z) {
                    return Some(QuandleFault::Distributive { x, y, z });
                }
            }
        }
    }
    None
}

/// Whether `(x ▷ y) ▷ z = (x ▷ z) ▷ (y ▷ z)`.
fn distributes(order: u8, table: &[u8], x: u8, y: u8, z: u8) -> bool
    requires square { length table.now ≡ order * order }
    requires within { range_fault (record { order = order; entries = table.now }) ≡ None }
    requires cases { (x < order) × (y < order) × (z < order) }
    ensures { result ≡ distributes (record { order = order; entries = table.now }) x y z }
{
    let left = entry(order, table, entry(order, table, x, y), z);
    left == entry(
        order,
        table,
        entry(order, table, x, z),
        entry(order, table, y, z),
    )
}

/// Whether `x` is below `z` and `x ▷ y = z ▷ y`.
fn collides(order: u8, table: &[u8], x: u8, z: u8, y: u8) -> bool
    requires square { length table.now ≡ order * order }
    requires cases { (x < order) × (z < order) × (y < order) }
    ensures { result ≡ collides (record { order = order; entries = table.now }) x z y }
{
    x < z && entry(order, table, x, y) == entry(order, table, z, y)
}
