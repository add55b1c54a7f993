// Pure combinatorics: points and lines, where two points share at most one line. The theorems are contracts of functions that do nothing.
#![tactic(auto)]

ghost use Rattle.counting.specs.Incidence.{Decrease, Distance, Dual};

// A few lines have fewer points that lie on more than t of them.
pub fn rich_points_are_fewer()
    ensures { Decrease }
{}

// Two lines share at most one point, so what holds of points and lines holds with the two exchanged.
pub fn lines_share_at_most_one_point()
    ensures { Dual }
{}

// A set of edges, not empty, is large if each point and each line that it touches has many of its edges.
pub fn edge_sets_are_large()
    ensures { Distance }
{}
