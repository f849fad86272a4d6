ghost use Rattle.std.specs.Prelude.{◌≡◌, ◌≤◌, ◌+◌, ◌*◌, ◌++◌, [], take, drop, length, vec_capacity};

// Moves what stands from the place on to `upper`, which is empty and has the room. It takes no memory.
pub(crate) fn move_end<T>(lower: &mut Vec<T>, upper: &mut Vec<T>, at: usize)
    requires place { at ≤ length lower.old.items }
    requires empty { upper.old.items ≡ [] }
    requires room { length lower.old.items ≤ at + vec_capacity upper.old }
    ensures lower { lower.new.items ≡ take at lower.old.items }
    ensures upper { upper.new.items ≡ drop at lower.old.items }
    ensures lower_room { vec_capacity lower.new ≡ vec_capacity lower.old }
    ensures upper_room { vec_capacity upper.new ≡ vec_capacity upper.old }
{
    'moves: while lower.len() > at {
        upper.push_reserved(lower.take_last());
    }
    upper.reverse();
}

// Moves values over, from the list that has more, until they differ by at most one. It takes no memory.
pub(crate) fn level<T>(left: &mut Vec<T>, right: &mut Vec<T>)
    requires left_room { length left.old.items + length right.old.items ≤ 2 * vec_capacity left.old }
    requires right_room { length left.old.items + length right.old.items ≤ 2 * vec_capacity right.old }
    ensures joined { left.new.items ++ right.new.items ≡ left.old.items ++ right.old.items }
    ensures left_most { length left.new.items ≤ length right.new.items + 1 }
    ensures right_most { length right.new.items ≤ length left.new.items + 1 }
    ensures left_keeps { vec_capacity left.new ≡ vec_capacity left.old }
    ensures right_keeps { vec_capacity right.new ≡ vec_capacity right.old }
{
    if left.len() < right.len() {
        raise_left(left, right);
    } else {
        raise_right(left, right);
    }
}

fn raise_left<T>(left: &mut Vec<T>, right: &mut Vec<T>)
    requires less { length left.old.items ≤ length right.old.items }
    requires room { length left.old.items + length right.old.items ≤ 2 * vec_capacity left.old }
    ensures joined { left.new.items ++ right.new.items ≡ left.old.items ++ right.old.items }
    ensures left_most { length left.new.items ≤ length right.new.items }
    ensures right_most { length right.new.items ≤ length left.new.items + 1 }
    ensures left_keeps { vec_capacity left.new ≡ vec_capacity left.old }
    ensures right_keeps { vec_capacity right.new ≡ vec_capacity right.old }
{
    'moves: while right.len() - left.len() > 1 {
        left.push_reserved(right.remove(0));
    }
}

fn raise_right<T>(left: &mut Vec<T>, right: &mut Vec<T>)
    requires less { length right.old.items ≤ length left.old.items }
    requires room { length left.old.items + length right.old.items ≤ 2 * vec_capacity right.old }
    ensures joined { left.new.items ++ right.new.items ≡ left.old.items ++ right.old.items }
    ensures right_most { length right.new.items ≤ length left.new.items }
    ensures left_most { length left.new.items ≤ length right.new.items + 1 }
    ensures left_keeps { vec_capacity left.new ≡ vec_capacity left.old }
    ensures right_keeps { vec_capacity right.new ≡ vec_capacity right.old }
{
    'moves: while left.len() - right.len() > 1 {
        right.insert(0, left.take_last()).unwrap();
    }
}
