ghost use Rattle.std.specs.Prelude.{◌≡◌, ◌==◌, ◌∷◌, ◌<◌, length, IfSome};
ghost use Rattle.std.specs.Option.{option_copied};
ghost use Rattle.std.specs.List.{list_all, slice_split, position};
ghost use Rattle.bundle.specs.Path.{is_path_byte, is_good_part, is_good_path as good, parts_after};

/// Whether a path may hold this byte.
pub(crate) fn is_path_byte(byte: u8) -> bool
    ensures { result ≡ is_path_byte byte }
{
    byte.is_ascii_alphanumeric() || matches!(byte, b'_' | b'-' | b'.' | b'/')
}

// Whether this may stand between two slashes.
fn is_good_part(part: &[u8]) -> bool
    ensures { result ≡ is_good_part part.now }
{
    !part.is_empty() && part != b".".as_slice() && part != b"..".as_slice()
}

// Where the first slash is.
fn find_slash(path: &[u8]) -> Option<usize>
    ensures { result ≡ position (λ b. b == 47) path.now }
{
    path.iter().position(|byte| *byte == b'/')
}

// The part before the first slash, and what comes after that slash, if there is one.
fn first_part(path: &[u8]) -> (&[u8], Option<&[u8]>)
    ensures parts { slice_split (λ b. b == 47) path.now ≡ result.0.now ∷ parts_after (option_copied result.1) }
    ensures shorter { IfSome result.1 (λ rest. length rest.now < length path.now) }
{
    match find_slash(path) {
        None => (path, None),
        Some(slash) => (&path[..slash], Some(&path[slash + 1..])),
    }
}

// Whether each part between slashes is good.
fn has_good_parts(path: &[u8]) -> bool
    ensures { result ≡ list_all is_good_part (slice_split (λ b. b == 47) path.now) }
{
    let (part, after) = first_part(path);
    if !is_good_part(part) {
        return false;
    }
    match after {
        None => true,
        Some(rest) => has_good_parts(rest),
    }
}

fn has_path_bytes(path: &[u8]) -> bool
    ensures { result ≡ list_all is_path_byte path.now }
{
    path.iter().all(|byte| is_path_byte(*byte))
}

/// Whether a file may have this path: 1 to 255 bytes, each a letter, a digit, `_`, `-`, `.` or `/`;
/// it ends with `.java`, and between slashes there is no empty part, no `.` and no `..`. It takes
/// no memory.
pub fn is_good_path(path: &[u8]) -> bool
    ensures { result ≡ good path.now }
{
    path.len() <= 255 && has_path_bytes(path) && path.ends_with(b".java") && has_good_parts(path)
}
