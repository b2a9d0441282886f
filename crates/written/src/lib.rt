// Which values a written clause takes; frames written back to bytes, lines and files, and that nothing is lost. No code that runs.
#![tactic(auto)]
