ghost use Rattle.std.specs.Prelude.{◌≡◌};

use crate::asked::Asked;
use crate::tokens::{BlockSealed, GrantedRow, Made, Spent};
use store_rules::{AnyReq, FileReq};
use tect_ids::{BlkId, FileId, Hold, Key, Node, Token};

// The request to a File shard, all of whose tokens were shown.
fn file_asked(req: FileReq) -> Asked
    ensures { result ≡ AnyReq.File req }
{
    Asked {
        req: AnyReq::File(req),
    }
}

/// Makes a file, held for an entry of a directory that was made.
pub fn file_make_file(
    file: FileId,
    hold: Hold,
    key: Key,
    token: Option<Token>,
    upper: &Made,
) -> Asked
    requires { upper.now ≡ Node.Dir key.dir }
    ensures { result ≡ AnyReq.File (FileReq.MakeFile file hold key token) }
{
    file_asked(FileReq::MakeFile {
        file,
        hold,
        key,
        token,
    })
}

/// Grants a hold at a file, for an entry of a directory that was made.
pub fn file_grant(file: FileId, hold: Hold, key: Key, upper: &Made) -> Asked
    requires { upper.now ≡ Node.Dir key.dir }
    ensures { result ≡ AnyReq.File (FileReq.Grant file hold key) }
{
    file_asked(FileReq::Grant { file, hold, key })
}

/// Releases a spent hold at a file.
pub fn file_release(file: FileId, hold: Hold, spent: &Spent) -> Asked
    requires { spent.now ≡ hold }
    ensures { result ≡ AnyReq.File (FileReq.Release file hold) }
{
    file_asked(FileReq::Release { file, hold })
}

/// Writes a new token into a file, so that no earlier one serves any more.
pub fn file_take_token(file: FileId, token: Token) -> Asked
    ensures { result ≡ AnyReq.File (FileReq.TakeToken file token) }
{
    file_asked(FileReq::TakeToken { file, token })
}

/// Adds a sealed block of `len` bytes at the end of a file that has the token, by a hold that was granted at the block for
/// that file.
pub fn file_attach(
    file: FileId,
    token: Token,
    blk: BlkId,
    len: u32,
    hold: Hold,
    granted: &GrantedRow,
    sealed: &BlockSealed,
) -> Asked
    requires granted { granted.now ≡ record { blk = blk; hold = hold; file = file } }
    requires sealed { sealed.now ≡ blk }
    ensures { result ≡ AnyReq.File (FileReq.Attach file token blk len hold) }
{
    file_asked(FileReq::Attach {
        file,
        token,
        blk,
        len,
        hold,
    })
}

/// Asks for the blocks of a file.
pub fn file_list_blocks(file: FileId) -> Asked
    ensures { result ≡ AnyReq.File (FileReq.ListBlocks file) }
{
    file_asked(FileReq::ListBlocks { file })
}

/// Seals a file: it is closed to new tokens and blocks. It stays sealed where it was.
pub fn file_seal_file(file: FileId) -> Asked
    ensures { result ≡ AnyReq.File (FileReq.SealFile file) }
{
    file_asked(FileReq::SealFile { file })
}
