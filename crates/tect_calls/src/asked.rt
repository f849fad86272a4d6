ghost use Rattle.std.specs.Prelude.{◌≡◌};

use std::marker::Model;
use store_rules::AnyReq;

/// A request whose needed tokens were shown. Each kind of request has a builder, which alone makes it.
#[derive(Debug, Drop)]
pub struct Asked {
    pub(crate) req: AnyReq,
}

impl Model for Asked {
    ghost use Rattle.store_rules.specs.declared.any.AnyReq.{AnyReq};

    ghost Value = { AnyReq };

    ghost view = { λ asked. asked.req };
}

impl Asked {
    /// The request itself. It takes no memory.
    pub fn request(&self) -> &AnyReq
        ensures { result.now ≡ self.now }
    {
        &self.req
    }

    /// The request itself, with the showing forgotten. It takes no memory.
    pub fn into_request(self) -> AnyReq
        ensures { result ≡ self }
    {
        self.req
    }
}
