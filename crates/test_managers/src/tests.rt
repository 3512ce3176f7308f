mod crashed;
