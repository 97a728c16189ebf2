//! What is asked for.

/// What is done at each position.
#[derive(Clone, Copy, Debug)]
pub(crate) enum Kind {
    Get,
    Set,
    Add,
    /// The values of the window that an iterator gives, in its own order.
    Elems,
    /// Their sum.
    Sum,
}

/// In which order positions come.
#[derive(Clone, Copy, Debug)]
pub(crate) enum Order {
    /// Those of one row of a window of 64 x 64 values, again and again.
    Row,
    /// Those of the window, row by row.
    Raster,
    /// Those of the window, at random.
    Random,
    /// The first one of each block of the array.
    Blocks,
}

/// The words as one.
#[derive(Clone, Copy, Debug)]
pub(crate) struct Request {
    pub(crate) is_wide: bool,
    pub(crate) kind: Kind,
    pub(crate) order: Order,
    pub(crate) rounds: u32,
}

/// What is asked for, behind the program's name; `None` where it is not spelled as it should be.
pub(crate) fn asked_for(words: &[String]) -> Option<Request> {
    let [_, ty, kind, order, rounds] = words else {
        return None;
    };
    Some(Request {
        is_wide: is_wide(ty.as_str())?,
        kind: kind_in(kind.as_str())?,
        order: order_in(order.as_str())?,
        rounds: rounds.as_str().parse::<u32>().ok()?,
    })
}

fn is_wide(word: &str) -> Option<bool> {
    match word {
        "int32" => Some(false),
        "int64" => Some(true),
        _ => None,
    }
}

fn kind_in(word: &str) -> Option<Kind> {
    match word {
        "get" => Some(Kind::Get),
        "set" => Some(Kind::Set),
        "add" => Some(Kind::Add),
        "elems" => Some(Kind::Elems),
        "sum" => Some(Kind::Sum),
        _ => None,
    }
}

fn order_in(word: &str) -> Option<Order> {
    match word {
        "row" => Some(Order::Row),
        "raster" => Some(Order::Raster),
        "random" => Some(Order::Random),
        "blocks" => Some(Order::Blocks),
        _ => None,
    }
}
