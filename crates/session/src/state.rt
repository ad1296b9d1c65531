// Which sessions are sound, and how a session changes: specs/State.
ghost use Rattle.std.specs.Prelude.{◌≡◌};
ghost use Rattle.cutter.specs.Numbers.{engine_number};
ghost use Rattle.session.specs.State.{
  closest_sound,
  cutter_sound,
  map_sound,
  sheet_sound,
  sound,
  active,
  opened_as,
  stale,
  built_by,
  down_at,
  up_of,
  cutter_of,
  own_cutter,
};

use crate::Session;
use cutter::{Closest, Cutter, Engine};

// ---- which are sound

impl Session {
    #[tactic(auto, unfolding(crate::specs::State::sheet_sound))]
    fn is_sheet_sound(self) -> bool
        ensures { result ≡ sheet_sound self }
    {
        if self.opened {
            return raster::is_side(self.width) & raster::is_side(self.height);
        }
        (self.width == 0) & ((self.height == 0) & !self.current)
    }

    #[tactic(auto, unfolding(crate::specs::State::map_sound))]
    fn is_map_sound(self) -> bool
        ensures { result ≡ map_sound self }
    {
        if self.current {
            return cutter::is_engine(self.engine);
        }
        self.engine == 0
    }

    #[tactic(auto, unfolding(crate::specs::State::cutter_sound))]
    fn is_cutter_sound(self) -> bool
        ensures { result ≡ cutter_sound self }
    {
        if self.lowered {
            let on_sheet = (self.x < self.width) & (self.y < self.height);
            return self.current & (on_sheet & (self.q <= Session::MAX_Q));
        }
        (self.x == 0) & ((self.y == 0) & (self.q == 0))
    }

    #[tactic(auto, unfolding(crate::specs::State::closest_sound))]
    fn is_closest_sound(self) -> bool
        ensures { result ≡ closest_sound self }
    {
        if self.closest.met {
            return self.current;
        }
        self.closest.size == 0
    }

    #[tactic(auto, unfolding(crate::specs::State::sound))]
    pub(crate) fn is_sound(self) -> bool
        ensures { result ≡ sound self }
    {
        let cutter = self.is_cutter_sound() & self.is_closest_sound();
        self.is_sheet_sound() & (self.is_map_sound() & cutter)
    }

    // A sheet is open.
    pub(crate) fn is_active(self) -> bool
        ensures { result ≡ active self }
    {
        self.opened & self.is_sound()
    }
}

// ---- how one changes

impl Session {
    // A sheet of w × h pixels is open, the map not current, the cutter up.
    pub(crate) fn opened_as(w: u16, h: u16) -> Session
        ensures { result ≡ opened_as w h }
    {
        Session {
            opened: true,
            width: w,
            height: h,
            ..Session::FRESH
        }
    }

    // The map is not current any more.
    pub(crate) fn stale(self) -> Session
        ensures { result ≡ stale self }
    {
        Session::opened_as(self.width, self.height)
    }

    // The map is current, built by an engine.
    pub(crate) fn built_by(self, engine: Engine) -> Session
        ensures { result ≡ built_by (engine_number engine) self }
    {
        Session {
            current: true,
            engine: engine.number(),
            ..self.stale()
        }
    }

    // The cutter is down at (x, y) with q, and has come that close.
    pub(crate) fn down_at(self, x: u16, y: u16, q: u32, closest: Closest) -> Session
        ensures { result ≡ down_at x y q closest self }
    {
        Session {
            lowered: true,
            x,
            y,
            q,
            closest,
            ..self
        }
    }

    // The cutter is up.
    pub(crate) fn up(self) -> Session
        ensures { result ≡ up_of self }
    {
        Session {
            lowered: false,
            x: 0,
            y: 0,
            q: 0,
            ..self
        }
    }
}

// ---- the cutter over the session's map

impl Session {
    // One of q at the pixel (x, y).
    pub(crate) fn cutter_at(self, x: u16, y: u16, q: u32) -> Cutter
        ensures { result ≡ cutter_of self x y q }
    {
        Cutter {
            width: self.width,
            height: self.height,
            engine: self.engine,
            x,
            y,
            q,
        }
    }

    // The one that is down.
    pub(crate) fn own_cutter(self) -> Cutter
        ensures { result ≡ own_cutter self }
    {
        self.cutter_at(self.x, self.y, self.q)
    }
}
