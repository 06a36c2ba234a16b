// A window that is not refused.
ghost use Rattle.std.specs.Prelude.{◌≡◌, true};
ghost use Rattle.clip.specs.Refuse.{window_fine};

use plane::Rect;

// Its sides are admitted, and lo is at most hi on either axis: so it is proved where one is made.
#[derive(Clone, Copy)]
pub struct Window {
    pub rect: Rect,
    pub ghost fine: { window_fine rect ≡ true },
}
