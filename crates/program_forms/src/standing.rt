/// Where a running command stands.
#[derive(Drop)]
pub enum Standing<P> {
    /// It goes on in that state.
    Goes { state: P },
    /// It did not hear its last reply, for want of memory, and fails next.
    Left,
    /// Its actor had no room to note its begin: it has its answer from the first.
    NoRoom,
}
