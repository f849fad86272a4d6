ghost use Rattle.std.specs.Prelude.{◌≡◌, ◌+◌, ◌<◌, ◌≤◌, is_some, false, ◌++◌, ◌∷◌, [], take, IfOk, OnOk, length};
ghost use Rattle.std.specs.Map.{lookup, keys_of};
ghost use Rattle.indexmap.specs.IndexMap.{insert_entry, index_map_len};
ghost use Rattle.script_forms.specs.Clients.{same_name, state_of as client_state, client_number, is_one_too_many as one_too_many};

use indexmap::IndexMap;
use script_forms::ClientState;
use std::alloc::Global;
use tect_ids::{Items, Name, NoMemory};

/// The clients in first-seen order.
pub type Clients = IndexMap<Name, ClientState>;

/// The state of a client.
pub fn state_of(clients: &Clients, name: &Name) -> ClientState
    ensures { result ≡ client_state clients.now.entries name.now }
{
    match clients.get(name) {
        Some(state) => *state,
        None => ClientState::Idle,
    }
}

/// Whether the client is not seen yet, behind 64 others.
pub fn is_one_too_many(clients: &Clients, name: &Name) -> bool
    ensures { result ≡ one_too_many clients.now.entries name.now }
{
    clients.len() >= 64 && clients.get(name).is_none()
}

fn name_at(clients: &Clients, at: usize) -> Result<Name, NoMemory>
    requires { at < length clients.now.entries }
    ensures { IfOk result (λ name. keys_of (take (at + 1) clients.now.entries) ≡ keys_of (take at clients.now.entries) ++ name ∷ []) }
{
    // There is a client at each index below their count.
    match clients.get_index(at) {
        Some((name, _)) => Ok(name.clone()?),
        None => Err(NoMemory),
    }
}

/// The names of the clients, in their order.
pub fn names_of(alloc: Global, clients: &Clients) -> Result<Items<Name>, NoMemory>
    ensures { IfOk result (λ names. names ≡ keys_of clients.now.entries) }
{
    let mut names = Vec::with_capacity(alloc, clients.len())?;
    'clients: for at in 0..clients.len() {
        names.push(name_at(clients, at)?)?;
    }
    Items::from_vec(names)
}

/// Notes the state of a client, and answers its number, from 1.
pub fn note(clients: &mut Clients, name: Name, state: ClientState) -> Result<u32, NoMemory>
    requires few { length clients.old.entries ≤ 64 }
    requires room { one_too_many clients.old.entries name ≡ false }
    ensures few { OnOk result (length clients.new.entries ≤ 64) }
    ensures number { IfOk result (λ number. number ≡ client_number clients.old.entries name) }
    ensures noted { OnOk result (clients.new.entries ≡ insert_entry same_name clients.old.entries name state) }
{
    let (index, _) = clients.insert_full(name, state)?;
    Ok(index as u32 + 1)
}
