ghost use Rattle.std.specs.List.{AllByRecursion};
ghost use Rattle.file_log.specs.Fits.{IsKey, IsName, IsMetaOfKeys, RequestFits};

use cache_types::{Key, Meta, Name, Request};

/// What is known of every name: that of an entry has a key.
pub fn name_known(name: &Name)
    ensures { IsName name.now }
{
    match name {
        Name::Entry { root: _, key } => key.known(),
        Name::Temp { root: _, key } => key.known(),
        _ => {}
    }
}

/// What is known of keys.
fn keys_known(keys: &[Key])
    ensures { AllByRecursion IsKey keys.now }
{
    let mut rest = keys;
    while let [key, tail @ ..] = rest {
        key.known();
        rest = tail;
    }
}

/// What is known of every meta: its keys are keys.
fn meta_known(meta: &Meta)
    ensures { IsMetaOfKeys meta.now }
{
    match meta {
        Meta::Unknown => {}
        Meta::Glsl(keys) => keys_known(keys.as_slice()),
    }
}

/// What is known of every request: its driver is one, its keys are keys, and its blob is bytes.
pub fn request_known(request: &Request)
    ensures { RequestFits request.now }
{
    match request {
        Request::Get {
            store: _,
            driver,
            key,
            ro: _,
        } => {
            driver.known();
            key.known();
        }
        Request::Put {
            store: _,
            driver,
            key,
            meta,
            blob,
            limit: _,
        } => {
            driver.known();
            key.known();
            meta_known(meta);
            blob.known();
        }
        Request::HasKey { root: _, key } => key.known(),
        Request::PutKey { root: _, key } => key.known(),
        Request::Keys { store: _, driver } => driver.known(),
        _ => {}
    }
}
