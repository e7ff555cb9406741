ghost use Rattle.std.specs.Prelude.{◌≡◌, ◌∷◌, ◌++◌, IfOk};

use crate::shares::Shared;
use crate::texts::Text;
use crate::trees::{Node, Tree};
use std::alloc::{AllocError, Global};

/// The tree of a pair and its two sides, of which one may have a pair more or less than before: a side
/// that is more than three times as large as the other gives a part of it to the other.
pub(crate) fn balance<V: Drop>(
    alloc: Global,
    left: Tree<V>,
    pair: Shared<(Text, V)>,
    right: Tree<V>,
) -> Result<Tree<V>, AllocError>
    ensures { IfOk result (λ made. made ≡ left ++ pair ∷ right) }
{
    if left.len() / 3 > right.len() {
        turn_right(alloc, &left, pair, right)
    } else if right.len() / 3 > left.len() {
        turn_left(alloc, left, pair, &right)
    } else {
        Tree::fork(alloc, left, pair, right)
    }
}

/// One tree after another.
pub(crate) fn joined<V: Drop>(
    alloc: Global,
    left: &Tree<V>,
    right: &Tree<V>,
) -> Result<Tree<V>, AllocError>
    ensures { IfOk result (λ made. made ≡ left.now ++ right.now) }
{
    match right.split_first(alloc)? {
        None => left.share(),
        Some((first, others)) => balance(alloc, left.share()?, first, others),
    }
}

/// Whether the inner half of a side is too large to go over to the other side whole.
fn is_thick<V>(inner: &Tree<V>, outer: &Tree<V>) -> bool {
    inner.len() - inner.len() / 2 > outer.len()
}

/// Hands the inner half of the left side over to the right, or the half of that half.
fn turn_right<V: Drop>(
    alloc: Global,
    left: &Tree<V>,
    pair: Shared<(Text, V)>,
    right: Tree<V>,
) -> Result<Tree<V>, AllocError>
    ensures { IfOk result (λ made. made ≡ left.now ++ pair ∷ right) }
{
    match left.node() {
        None => Tree::fork(alloc, left.share()?, pair, right),
        Some(top) => match top.right.node() {
            Some(middle) if is_thick(&top.right, &top.left) => part_right(
                alloc, top, middle, pair, right,
            ),
            _ => {
                let right = Tree::fork(alloc, top.right.share()?, pair, right)?;
                Tree::fork(alloc, top.left.share()?, top.pair.share()?, right)
            }
        },
    }
}

fn part_right<V: Drop>(
    alloc: Global,
    top: &Node<V>,
    middle: &Node<V>,
    pair: Shared<(Text, V)>,
    right: Tree<V>,
) -> Result<Tree<V>, AllocError>
    ensures { IfOk result (λ made. made ≡ (top.now.left ++ top.now.pair ∷ middle.now.left) ++ middle.now.pair ∷ (middle.now.right ++ pair ∷ right)) }
{
    let left = Tree::fork(
        alloc,
        top.left.share()?,
        top.pair.share()?,
        middle.left.share()?,
    )?;
    let right = Tree::fork(alloc, middle.right.share()?, pair, right)?;
    Tree::fork(alloc, left, middle.pair.share()?, right)
}

/// Hands the inner half of the right side over to the left, or the half of that half.
fn turn_left<V: Drop>(
    alloc: Global,
    left: Tree<V>,
    pair: Shared<(Text, V)>,
    right: &Tree<V>,
) -> Result<Tree<V>, AllocError>
    ensures { IfOk result (λ made. made ≡ left ++ pair ∷ right.now) }
{
    match right.node() {
        None => Tree::fork(alloc, left, pair, right.share()?),
        Some(top) => match top.left.node() {
            Some(middle) if is_thick(&top.left, &top.right) => part_left(
                alloc, left, pair, middle, top,
            ),
            _ => {
                let left = Tree::fork(alloc, left, pair, top.left.share()?)?;
                Tree::fork(alloc, left, top.pair.share()?, top.right.share()?)
            }
        },
    }
}

fn part_left<V: Drop>(
    alloc: Global,
    left: Tree<V>,
    pair: Shared<(Text, V)>,
    middle: &Node<V>,
    top: &Node<V>,
) -> Result<Tree<V>, AllocError>
    ensures { IfOk result (λ made. made ≡ (left ++ pair ∷ middle.now.left) ++ middle.now.pair ∷ (middle.now.right ++ top.now.pair ∷ top.now.right)) }
{
    let left = Tree::fork(alloc, left, pair, middle.left.share()?)?;
    let right = Tree::fork(
        alloc,
        middle.right.share()?,
        top.pair.share()?,
        top.right.share()?,
    )?;
    Tree::fork(alloc, left, middle.pair.share()?, right)
}
