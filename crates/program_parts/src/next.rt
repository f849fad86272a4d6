/// Where a part of a command goes on, or what it has come to.
#[derive(Drop)]
pub enum Next<S, R> {
    /// It goes on in that state, and makes the request of it.
    Goes { state: S },
    /// It has come to its result.
    Comes { result: R },
}
