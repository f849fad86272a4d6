ghost use Rattle.std.specs.Prelude.{◌≡◌, ◌+◌, ◌<◌, ◌^◌, ◌≤◌, [], ◌∷◌, ◌++◌, length, vec_len, vec_capacity};

/// Whose event comes next: an actor's, or a dump.
#[derive(Clone, Copy)]
pub enum Mark {
    Actor(u32),
    Dump,
}

/// Adds a mark for which there is room. It takes no memory.
pub fn push_mark(order: &mut Vec<Mark>, mark: Mark)
    requires { vec_len order.old < vec_capacity order.old }
    ensures items { order.new.items ≡ order.old.items ++ mark ∷ [] }
    ensures len { vec_len order.new ≡ vec_len order.old + 1 }
    ensures room { vec_capacity order.old ≤ vec_capacity order.new }
{
    order.push_reserved(mark);
}

/// Stands for its contract alone: an order is short, since its marks take room. It takes no memory.
pub fn is_short(order: &[Mark])
    ensures { length order.now < 2 ^ 61 }
{
    let _len = order.len();
}
