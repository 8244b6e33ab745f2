ghost use Rattle.std.specs.Prelude.{◌≡◌, false};
ghost use Rattle.ios_lex.specs.declared.reason.IosReason.{IosReason};
ghost use Rattle.ios_lex.specs.Phrases.{Words};
ghost use Rattle.ios_route.specs.declared.static_route.StaticRoute.{StaticRoute};
ghost use Rattle.ios_route.specs.RouteLines.{IsRoute};
ghost use Rattle.ios_route.specs.RouteRefusals.{IsRefused};

/// The words of a line are one route or are refused for one reason: not both, and not neither.
pub fn one_route()
    ensures not_both { (route : StaticRoute) (words : Words) (why : IosReason)
        → IsRoute false route words → IsRefused words why → ⊥ }
    ensures not_neither { (words : Words) → ((route : StaticRoute) → IsRoute false route words → ⊥)
        → ((why : IosReason) → IsRefused words why → ⊥) → ⊥ }
    ensures same_route { (route other : StaticRoute) (words : Words) → route.line ≡ other.line
        → IsRoute false route words → IsRoute false other words → route ≡ other }
    ensures same_reason { (words : Words) (why other : IosReason) → IsRefused words why
        → IsRefused words other → why ≡ other }
{}
