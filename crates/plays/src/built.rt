ghost use Rattle.std.specs.Prelude.{◌≡◌, ◌↔◌, ◌≤◌, [], false, length, IsTrue};
ghost use Rattle.cache_types.specs.declared.limits.TheConstants.{MAX_KEYS};
ghost use Rattle.cache_types.specs.declared.store.Layout.TheVariants as layouts;
ghost use Rattle.item_frame.specs.Writing.{key_count};
ghost use Rattle.op_machine.specs.Requests.{IsBuilt};

use cache_types::{Layout, MAX_KEYS, Meta, Request, RoPlan, Store};

fn is_folder(store: Store) -> bool
    ensures { IsTrue result ↔ (store.layout ≡ layouts.Folder) }
{
    store.layout == Layout::Folder
}

fn asks_none(ro: &RoPlan) -> bool
    ensures { IsTrue result ↔ ((ro.now.names ≡ []) × (ro.now.list ≡ false)) }
{
    ro.names.as_slice().is_empty() && !ro.list
}

fn has_few_keys(meta: &Meta) -> bool
    ensures { IsTrue result ↔ (key_count meta.now ≤ MAX_KEYS) }
{
    match meta {
        Meta::Unknown => true,
        Meta::Glsl(keys) => keys.as_slice().len() <= MAX_KEYS,
    }
}

/// Whether a request can be done today.
pub fn is_built(request: &Request) -> bool
    ensures { IsTrue result ↔ IsBuilt request.now }
{
    match request {
        Request::Get { store, ro, .. } => is_folder(*store) && asks_none(ro),
        Request::Put { store, meta, .. } => is_folder(*store) && has_few_keys(meta),
        _ => false,
    }
}
