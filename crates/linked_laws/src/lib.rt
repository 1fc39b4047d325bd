// What an accepted call over a linked section is, frame by frame and in any order of the frames: laws alone.
#![tactic(auto)]
