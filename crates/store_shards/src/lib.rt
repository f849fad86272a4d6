//! The law that the shards of the store, taken together, are the whole store: a request that is done at the shard of its
//! place is replied to and done as on the whole store. Nothing here is called: each function's contract is a law.
#![tactic(auto)]

ghost use Rattle.std.specs.Prelude.{◌≡◌, List, length, slice_index_or, slice_set};
ghost use Rattle.tect_ids.specs.Places.{HasPlaces, place_count};
ghost use Rattle.tect_ids.specs.declared.ids.Counts.{Counts};
ghost use Rattle.store_rules.specs.Alone.{no_store, request_layer};
ghost use Rattle.store_rules.specs.Places.{request_place};
ghost use Rattle.store_rules.specs.Store.{Store, opening_store, store_changes, store_reply, store_step};
ghost use Rattle.store_rules.specs.declared.any.AnyReq.{AnyReq};
ghost use Rattle.store_shards.specs.Rows.{AreShards, parts_of, together};
ghost use Rattle.store_shards.specs.Runs.{parts_after, parts_replies, store_after, store_replies};
ghost use Rattle.store_shards.specs.Shards.{AreWhole, IsShardOf, Parts, opening_parts, parts_changes, parts_reply};
ghost use Rattle.store_shards.specs.Shards.{parts_step};

/// Before anything was done the shards are the store with the root alone: the shard of the root's place has it.
pub fn opening_shards_are_the_store()
    ensures { (counts : Counts) → AreWhole counts (opening_parts counts) opening_store }
{}

/// Shards are the whole of one store alone.
pub fn shards_are_one_store()
    ensures { (counts : Counts) (parts : Parts) (one other : Store) → AreWhole counts parts one
        → AreWhole counts parts other → one ≡ other }
{}

/// Every request has a shard: its place is one of its layer's.
pub fn each_request_has_a_shard()
    ensures { (counts : Counts) (req : AnyReq) → HasPlaces counts → IsShardOf counts (request_layer req) (request_place counts req) }
{}

/// The shard at a request's place replies what the whole store would reply, and changes where the store would.
pub fn shards_reply_as_the_store()
    ensures reply { (counts : Counts) (parts : Parts) (whole : Store) (req : AnyReq) → AreWhole counts parts whole
        → parts_reply counts parts req ≡ store_reply whole req }
    ensures changes { (counts : Counts) (parts : Parts) (whole : Store) (req : AnyReq) → AreWhole counts parts whole
        → parts_changes counts parts req ≡ store_changes whole req }
{}

/// After a request is done at the shard of its place, and on the whole store, the shards are still the whole store.
pub fn shards_step_as_the_store()
    ensures { (counts : Counts) (parts : Parts) (whole : Store) (req : AnyReq) → AreWhole counts parts whole
        → AreWhole counts (parts_step counts parts req) (store_step whole req) }
{}

/// After any requests, each done at the shard of its place, the shards are the whole store after them, and every reply was
/// the store's.
pub fn shards_stay_the_store()
    ensures whole { (counts : Counts) (parts : Parts) (whole : Store) (reqs : List AnyReq) → AreWhole counts parts whole
        → AreWhole counts (parts_after counts parts reqs) (store_after whole reqs) }
    ensures replies { (counts : Counts) (parts : Parts) (whole : Store) (reqs : List AnyReq) → AreWhole counts parts whole
        → parts_replies counts parts reqs ≡ store_replies whole reqs }
{}

/// From the opening on, after any requests, the shards are the whole store, and every reply was the store's.
pub fn opening_shards_stay_the_store()
    ensures whole { (counts : Counts) (reqs : List AnyReq)
        → AreWhole counts (parts_after counts (opening_parts counts) reqs) (store_after opening_store reqs) }
    ensures replies { (counts : Counts) (reqs : List AnyReq) → parts_replies counts (opening_parts counts) reqs
        ≡ store_replies opening_store reqs }
{}

/// Shards in a row that are the whole of a store are, together, that store.
pub fn shards_in_a_row_are_one_store()
    ensures { (counts : Counts) (row : List Store) (whole : Store) → HasPlaces counts → length row ≡ place_count counts
        → AreWhole counts (parts_of row) whole → together row ≡ whole }
{}

/// After a request is done at the shard of its place the row is the store after it.
pub fn a_row_steps_as_the_store()
    ensures { (counts : Counts) (row : List Store) (req : AnyReq) → AreShards counts row
        → let place = (request_place counts req).0 in
        let later = slice_set row place (store_step (slice_index_or row place no_store) req) in
        AreShards counts later × (together later ≡ store_step (together row) req) }
{}
