//! The digits of numbers, and how many binary digits a tree has.

ghost use Rattle.std.specs.Prelude.{◌≡◌, ◌<◌, ◌≤◌, ◌/◌, ◌%◌, ◌^◌, true, false};

/// How many binary digits a leaf has.
pub(crate) const LEAF: u32 = 5;

// How many more binary digits a node has than its children.
const MORE: u32 = 5;

/// The first digit of a number, above the last `width` binary ones.
#[inline(always)]
pub(crate) fn first_digit(number: u64, width: u32) -> usize
    requires { width < 64 }
    ensures { result ≡ number / 2 ^ width }
{
    (number >> width) as usize
}

/// The last `width` binary digits of a number.
#[inline(always)]
pub(crate) fn last_digits(number: u64, width: u32) -> u64
    requires { width < 64 }
    ensures { result ≡ number % 2 ^ width }
{
    number & ((1 << width) - 1)
}

/// Whether a number has at most `width` binary digits.
#[inline(always)]
pub(crate) fn has_room(width: u32, number: u64) -> bool
    requires { width ≤ 64 }
    ensures room { result ≡ true → number < 2 ^ width }
    ensures none { result ≡ false → width < 64 }
{
    width == 64 || number >> width == 0
}

/// How many binary digits a node above a tree of `width` binary digits has.
pub(crate) fn wider(width: u32) -> u32
    requires { width < 64 }
    ensures more { width < result }
    ensures most { result ≤ 64 }
{
    (width + MORE).min(64)
}

/// How many binary digits the children of a node have that isn't a leaf.
pub(crate) fn narrower(width: u32) -> u32
    requires { 0 < width }
    ensures { result < width }
{
    width.saturating_sub(MORE)
}

/// How many binary digits a tree has where a number is the first one in it.
pub(crate) fn width_for(number: u64) -> u32
    ensures room { number < 2 ^ result }
    ensures most { result ≤ 64 }
{
    let mut width = LEAF;
    while !has_room(width, number) {
        width = wider(width);
    }
    width
}
