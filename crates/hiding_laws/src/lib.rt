// The theorem: where a port is hidden, the other ports keep their periods and their possible starts. No function stands here.
#![tactic(auto)]
